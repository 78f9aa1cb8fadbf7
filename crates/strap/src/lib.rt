// The strap's message, q = 4, m = 4: a rate of 0 to 255 beats per minute in the four coefficients, and a zone of 0 to 3.
#![tactic(auto)]

ghost use Rattle.std.specs.Prelude.{◌≡◌, length};
ghost use Rattle.code_questions.specs.Internal.{refusal};
ghost use Rattle.code_questions.specs.Refusal.{answered, no_values};
ghost use Rattle.strap.specs.Strap.{rate_of, pack_refusal, pack_answer, pack_message, unpack_refusal, unpack_answer, report_values};

use code_questions::{Refusal, ask};

// What a strap's message says.
#[derive(Clone, Copy, Debug, PartialEq, Eq)]
pub struct Report {
    pub rate: u8,
    pub zone: u8,
}

// Stores the five symbols one by one: copy_from_slice would lay them beside, ask whether the two overlap, and read them back.
fn store(message: &mut [u8], symbols: [u8; 5])
    requires { length message.old ≡ 5 }
    ensures { message.new ≡ symbols }
{
    let [zone, a0, a1, a2, a3] = symbols;
    message[0] = zone;
    message[1] = a0;
    message[2] = a1;
    message[3] = a2;
    message[4] = a3;
}

// Fills the message with the rate and the zone (docs/REQUIREMENTS.md: Pack).
pub fn pack(message: &mut [u8], rate: u8, zone: u8) -> Result<(), Refusal>
    ensures answer { answered no_values result ≡ pack_answer message.old zone }
    ensures buffer { message.new ≡ pack_message message.old rate zone }
{
    ask_pack(message, zone)?;
    store(
        message,
        [zone, rate % 4, rate / 4 % 4, rate / 16 % 4, rate / 64 % 4],
    );
    Ok(())
}

// What the message says of rate and zone (docs/REQUIREMENTS.md: Unpack).
pub fn unpack(message: &[u8]) -> Result<Report, Refusal>
    ensures { answered report_values result ≡ unpack_answer message.now }
{
    ask_unpack(message)?;
    Ok(Report {
        rate: rate_of(message),
        zone: message[0],
    })
}

// The rate of a message that holds one. It is summed from the highest coefficient on. Written out: a fold would need a clause that bounds
// the sum at each step, and four terms show it.
#[tactic(auto, unfolding(crate::specs::Strap::rate_of), using(crate::proofs::StrapLaws::coefficients))]
pub fn rate_of(message: &[u8]) -> u8
    requires { unpack_refusal message.now ≡ 0 }
    ensures { result ≡ rate_of message.now }
{
    ((message[4] * 4 + message[3]) * 4 + message[2]) * 4 + message[1]
}

// Questions 5 and 13.
#[tactic(auto, unfolding(code_questions::specs::Internal::refusal, crate::specs::Strap::pack_refusal, crate::specs::Strap::is_zone, code_theory::specs::Question::ask, code_theory::specs::Question::is_message_size))]
fn ask_pack(message: &[u8], zone: u8) -> Result<(), Refusal>
    ensures { refusal result ≡ pack_refusal message.now zone }
{
    ask(message.len() == 5, Refusal::MessageSize)?;
    ask(zone <= 3, Refusal::Zone)
}

// Questions 5 and 6.
#[tactic(auto, unfolding(code_questions::specs::Internal::refusal, crate::specs::Strap::unpack_refusal, code_theory::specs::Question::ask, code_theory::specs::Question::is_message_size))]
fn ask_unpack(message: &[u8]) -> Result<(), Refusal>
    ensures { refusal result ≡ unpack_refusal message.now }
{
    ask(message.len() == 5, Refusal::MessageSize)?;
    ask(
        code_questions::all_below(4, message),
        Refusal::MessageSymbols,
    )
}
