// Confirm (docs/REQUIREMENTS.md): whether a message is near a received word, with a body for each length. The word of the message is
// written into a buffer, and its places are compared with those of the received word; that word is not read.
#![tactic(auto, unfolding(code_questions::specs::Refusal::answered, code_questions::specs::Internal::refusal, code_theory::specs::Question::ask, code_theory::specs::Question::is_variables, encode_by_length::specs::Encoder::encode_refusal, crate::specs::Nearness::near_answer), using(code_questions::proofs::RefusalLaws::refused_answer))]

ghost use Rattle.std.specs.Prelude.{◌≡◌, true, ◌^◌, ◌<◌, ◌≤◌};
ghost use Rattle.code_theory.specs.Question.{is_alphabet, is_variables};
ghost use Rattle.code_questions.specs.Refusal.{answered};
ghost use Rattle.decode_near.specs.Nearness.{near_answer, near_values};

use code_questions::{Refusal, ask};

// Confirm where questions 1 and 2 are answered yes, with a buffer of N places for the word of the message. A small buffer can stay in
// registers (docs/DECISIONS.md, "What else was tried for it?").
fn near_within<const N: usize>(q: u32, m: u32, message: &[u8], word: &[u8]) -> Result<bool, Refusal>
    requires { (is_alphabet q ≡ true) × (is_variables m ≡ true) × (2 ^ m ≤ N) × (N ≤ 256) }
    ensures { answered near_values result ≡ near_answer q m message.now word.now }
{
    encode_by_length::ask_slices(q, m, message, word)?;
    let mut code = [0u8; N];
    encode_codeword::write(q, m, message, &mut code);
    Ok(decode_near_places::few_differ(&code, word, code_arith::pow2(m - 2)))
}

// Confirm for m below 4: question 2 is answered yes for 2 and 3 only.
fn near_2_or_3(q: u32, m: u32, message: &[u8], word: &[u8]) -> Result<bool, Refusal>
    requires { (is_alphabet q ≡ true) × (m < 4) }
    ensures { answered near_values result ≡ near_answer q m message.now word.now }
{
    match m {
        2 => near_within::<32>(q, 2, message, word),
        3 => near_within::<32>(q, 3, message, word),
        _ => Err(Refusal::Variables),
    }
}

// Confirm for m 4 or 5.
fn near_4_or_5(q: u32, m: u32, message: &[u8], word: &[u8]) -> Result<bool, Refusal>
    requires { (is_alphabet q ≡ true) × (4 ≤ m) × (m < 6) }
    ensures { answered near_values result ≡ near_answer q m message.now word.now }
{
    match m {
        4 => near_within::<32>(q, 4, message, word),
        _ => near_within::<32>(q, 5, message, word),
    }
}

// Confirm for m above 6: question 2 is answered yes for 7 and 8 only.
fn near_7_or_8(q: u32, m: u32, message: &[u8], word: &[u8]) -> Result<bool, Refusal>
    requires { (is_alphabet q ≡ true) × (6 < m) }
    ensures { answered near_values result ≡ near_answer q m message.now word.now }
{
    match m {
        7 => near_within::<256>(q, 7, message, word),
        8 => near_within::<256>(q, 8, message, word),
        _ => Err(Refusal::Variables),
    }
}

// Confirm: whether the message is near the word. The choice by m is made in small steps, as in encode_by_length.
pub fn is_near(q: u32, m: u32, message: &[u8], word: &[u8]) -> Result<bool, Refusal>
    ensures { answered near_values result ≡ near_answer q m message.now word.now }
{
    ask(code_questions::is_alphabet(q), Refusal::Alphabet)?;
    if m == 6 {
        return near_within::<256>(q, 6, message, word);
    }
    if m < 4 {
        return near_2_or_3(q, m, message, word);
    }
    if m < 6 {
        return near_4_or_5(q, m, message, word);
    }
    near_7_or_8(q, m, message, word)
}
