// Confirm for a program that holds it against another implementation; nothing else uses this crate.
#![tactic(auto, unfolding(code_questions::specs::Refusal::answered, decode_near::specs::Nearness::near_values, crate::specs::Internal::near_number))]

ghost use Rattle.std.specs.Prelude.{◌≡◌};
ghost use Rattle.decode_near.specs.Nearness.{near_answer};
ghost use Rattle.compare_near.specs.Internal.{near_number};

// Whether the message is near the word: the refusal number, or 101 for yes and 100 for no.
#[unsafe(no_mangle)]
pub extern "C" fn compare_near(q: u32, m: u32, message: &[u8], word: &[u8]) -> u32
    ensures { result ≡ near_number (near_answer q m message.now word.now) }
{
    match decode_near::is_near(q, m, message, word) {
        Ok(true) => 101,
        Ok(false) => 100,
        Err(refusal) => refusal.into(),
    }
}
