// The strap's calls for a program that compares them with another implementation; nothing else uses this crate.
#![tactic(auto)]

ghost use Rattle.std.specs.Prelude.{◌≡◌};
ghost use Rattle.strap.specs.Strap.{pack_answer, pack_message, unpack_answer};
ghost use Rattle.code_theory.specs.Internal.{answer_number};
ghost use Rattle.compare_strap.specs.Internal.{unpack_number};

// Fills the message with the rate and the zone: the refusal number, or 100.
#[unsafe(no_mangle)]
pub extern "C" fn compare_pack(message: &mut [u8], rate: u8, zone: u8) -> u32
    ensures answer { result ≡ answer_number (pack_answer message.old zone) }
    ensures buffer { message.new ≡ pack_message message.old rate zone }
{
    match strap::pack(message, rate, zone) {
        Ok(()) => 100,
        Err(refusal) => refusal.into(),
    }
}

// What the message says: the refusal number, or 1,000,000 + 1,000 × rate + zone.
#[unsafe(no_mangle)]
pub extern "C" fn compare_unpack(message: &[u8]) -> u32
    ensures { result ≡ unpack_number (unpack_answer message.now) }
{
    match strap::unpack(message) {
        Ok(report) => 1_000_000 + 1_000 * u32::from(report.rate) + u32::from(report.zone),
        Err(refusal) => refusal.into(),
    }
}
