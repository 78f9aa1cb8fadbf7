// Words of RM_q(1, m): encode (docs/REQUIREMENTS.md: Write) and decode (Read).
#![tactic(auto)]

ghost use Rattle.std.specs.Prelude.{◌≡◌};
ghost use Rattle.code_questions.specs.Internal.{refusal};
ghost use Rattle.code_questions.specs.Refusal.{answered, no_values};
ghost use Rattle.codec.specs.Codec.{encode_answer, encode_word, decode_answer, decode_message, reading_values};
ghost use Rattle.codec.specs.Internal.{size_refusal, word_refusal};

use code_questions::{Refusal, ask};
// How a word was read.
pub use decode_reading::Reading;

// Write: fills the word with the message's codeword.
#[tactic(auto, unfolding(crate::specs::Codec::encode_answer), using(code_questions::proofs::RefusalLaws::answered_none))]
pub fn encode(q: u32, m: u32, message: &[u8], word: &mut [u8]) -> Result<(), Refusal>
    ensures answer { answered no_values result ≡ encode_answer q m message.now word.old }
    ensures buffer { word.new ≡ encode_word q m message.now word.old }
{
    encode_by_length::write_any(q, m, message, word)
}

// Questions 1, 2 and 5.
#[tactic(auto, unfolding(code_questions::specs::Internal::refusal, crate::specs::Internal::size_refusal, code_theory::specs::Question::ask, code_theory::specs::Question::is_message_size))]
fn ask_size(q: u32, m: u32, message: &[u8]) -> Result<(), Refusal>
    ensures { refusal result ≡ size_refusal q m message.now }
{
    ask(code_questions::is_alphabet(q), Refusal::Alphabet)?;
    ask(code_questions::is_variables(m), Refusal::Variables)?;
    ask(message.len() == m as usize + 1, Refusal::MessageSize)
}

// The questions of Read before 9.
#[tactic(auto, unfolding(code_questions::specs::Internal::refusal, crate::specs::Internal::size_refusal, crate::specs::Internal::word_refusal, code_theory::specs::Question::ask, code_theory::specs::Question::is_variables, code_theory::specs::Question::is_message_size, code_theory::specs::Question::is_word_size))]
fn ask_word(q: u32, m: u32, message: &[u8], word: &[u8]) -> Result<(), Refusal>
    ensures { refusal result ≡ word_refusal q m message.now word.now }
{
    ask_size(q, m, message)?;
    ask(word.len() == code_arith::pow2(m), Refusal::WordSize)?;
    ask(swar_questions::word_below(q, m, word), Refusal::WordSymbols)
}

// Read: fills the message with the near message, if there is one.
pub fn decode(q: u32, m: u32, message: &mut [u8], word: &[u8]) -> Result<Reading, Refusal>
    ensures answer { answered reading_values result ≡ decode_answer q m message.old word.now }
    ensures buffer { message.new ≡ decode_message q m message.old word.now }
{
    ask_word(q, m, message, word)?;
    decode_by_length::read(q, m, message, word).ok_or(Refusal::Doubtful)
}
