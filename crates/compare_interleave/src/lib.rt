// Groups of words for a program that holds them against another implementation; nothing else uses this crate.
#![tactic(auto, unfolding(code_questions::specs::Refusal::answered, code_questions::specs::Refusal::no_values, code_theory::specs::Internal::answer_number))]

ghost use Rattle.std.specs.Prelude.{◌≡◌};
ghost use Rattle.code_theory.specs.Internal.{answer_number};
ghost use Rattle.interleave.specs.Interleave.{group_answer, rearrange_target, put_back_target};

// Rearranges the source into the target: the refusal number, or 100.
#[unsafe(no_mangle)]
pub extern "C" fn compare_interleave(
    q: u32,
    m: u32,
    count: u32,
    source: &[u8],
    target: &mut [u8],
) -> u32
    ensures answer { result ≡ answer_number (group_answer q m count source.now target.old) }
    ensures buffer { target.new ≡ rearrange_target q m count source.now target.old }
{
    match interleave::interleave(q, m, count, source, target) {
        Ok(()) => 100,
        Err(refusal) => refusal.into(),
    }
}

// Puts the source back into the target: the refusal number, or 100.
#[unsafe(no_mangle)]
pub extern "C" fn compare_deinterleave(
    q: u32,
    m: u32,
    count: u32,
    source: &[u8],
    target: &mut [u8],
) -> u32
    ensures answer { result ≡ answer_number (group_answer q m count source.now target.old) }
    ensures buffer { target.new ≡ put_back_target q m count source.now target.old }
{
    match interleave::deinterleave(q, m, count, source, target) {
        Ok(()) => 100,
        Err(refusal) => refusal.into(),
    }
}
