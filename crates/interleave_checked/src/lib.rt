// Groups of words whose slices are asked about first: questions 7, 7 and 8 (docs/REQUIREMENTS.md), and then the rows of the source are
// transposed into the target. Where the number of symbols is written out, the compiler makes straight code of both together.
#![tactic(auto, unfolding(code_questions::specs::Internal::refusal, code_theory::specs::Question::ask, interleave_theory::specs::Internal::slices_refusal))]

ghost use Rattle.std.specs.Prelude.{◌≡◌, true, ◌+◌, ◌*◌, ◌/◌, ◌%◌, ◌^◌, ◌≤◌, length};
ghost use Rattle.code_theory.specs.Question.{is_alphabet, all_below};
ghost use Rattle.code_questions.specs.Internal.{Tells, refusal};
ghost use Rattle.interleave_theory.specs.Internal.{slices_refusal, Checked};

use code_questions::{Refusal, ask};

// Whether all symbols of a part are below q: eight of them in one number, and all these numbers put together bit by bit.
fn eights_below(q: u32, s: &[u8]) -> bool
    requires { (is_alphabet q ≡ true) × (length s.now % 8 ≡ 0) }
    ensures { Tells result q (length s.now) s.now 0 }
{
    let mut all: u64 = 0;
    for eight in s.chunks_exact(8) {
        all |= swar_bytes::eight(eight, 0);
    }
    all & swar_bytes::mask(q) == all
}

// Whether all symbols are below q, in parts of 512: the compiler knows how long a part is.
fn parts_below(q: u32, s: &[u8]) -> bool
    requires { (is_alphabet q ≡ true) × (length s.now % 512 ≡ 0) }
    ensures { Tells result q (length s.now) s.now 0 }
{
    for part in s.chunks_exact(512) {
        if !eights_below(q, part) {
            return false;
        }
    }
    true
}

// Question 8 about a source of so many symbols. The size is handed over, so that the compiler knows it where it is written out.
fn group_below(q: u32, size: usize, s: &[u8]) -> bool
    requires { (is_alphabet q ≡ true) × (length s.now ≡ size) }
    ensures { result ≡ all_below q s.now }
{
    if size % 512 == 0 {
        return parts_below(q, s);
    }
    if size % 8 == 0 {
        return eights_below(q, s);
    }
    code_questions::all_below(q, s)
}

// Questions 7, 7 and 8 about a source and a target of so many symbols.
fn ask_slices(q: u32, size: usize, source: &[u8], target: &[u8]) -> Result<(), Refusal>
    requires { is_alphabet q ≡ true }
    ensures { refusal result ≡ slices_refusal q size source.now target.now }
{
    ask(source.len() == size, Refusal::WordSize)?;
    ask(target.len() == size, Refusal::WordSize)?;
    ask(group_below(q, size, source), Refusal::WordSymbols)
}

// The same about sixteen rows of sixteen symbols. Question 8 is asked by the largest symbol: the compiler then puts all of this into the
// call.
fn ask_square(q: u32, source: &[u8], target: &[u8]) -> Result<(), Refusal>
    requires { is_alphabet q ≡ true }
    ensures { refusal result ≡ slices_refusal q 256 source.now target.now }
{
    ask(source.len() == 256, Refusal::WordSize)?;
    ask(target.len() == 256, Refusal::WordSize)?;
    ask(code_questions::all_below(q, source), Refusal::WordSymbols)
}

// A group of 2 * half symbols, at most 256, in 2^times rows.
#[tactic(auto, unfolding(code_questions::specs::Internal::refusal), using(interleave_block::proofs::RoundLaws::divided, crate::proofs::SlicesLaws::sizes, crate::proofs::SlicesLaws::checked_no, crate::proofs::SlicesLaws::checked_yes))]
pub fn small(
    q: u32,
    half: usize,
    times: u32,
    source: &[u8],
    target: &mut [u8],
) -> Result<(), Refusal>
    requires { (is_alphabet q ≡ true) × (half ≤ 128) × (2 * half % 2 ^ times ≡ 0) }
    ensures { Checked q (2 ^ times) (2 * half / 2 ^ times) source.now target.old (refusal result) target.new }
{
    ask_slices(q, 2 * half, source, target)?;
    interleave_block::shuffle_times(half, times, source, target);
    Ok(())
}

// Sixteen rows of sixteen symbols.
pub fn square(q: u32, source: &[u8], target: &mut [u8]) -> Result<(), Refusal>
    requires { is_alphabet q ≡ true }
    ensures { Checked q 16 16 source.now target.old (refusal result) target.new }
{
    ask_square(q, source, target)?;
    interleave_block::square(source, target);
    Ok(())
}

// Rows of any number and length.
#[tactic(auto, unfolding(code_questions::specs::Internal::refusal), using(crate::proofs::SlicesLaws::sizes, crate::proofs::SlicesLaws::checked_no, crate::proofs::SlicesLaws::checked_yes))]
fn rows(q: u32, a: usize, b: usize, source: &[u8], target: &mut [u8]) -> Result<(), Refusal>
    requires { (is_alphabet q ≡ true) × (a * b ≤ 4096) }
    ensures { Checked q a b source.now target.old (refusal result) target.new }
{
    ask_slices(q, a * b, source, target)?;
    interleave_by_size::transpose(a, b, source, target);
    Ok(())
}

// The same, with the source lent as a part: the compiler then hands it over in registers.
pub fn any_size(q: u32, a: usize, b: usize, source: &[u8], target: &mut [u8]) -> Result<(), Refusal>
    requires { (is_alphabet q ≡ true) × (a * b ≤ 4096) }
    ensures { Checked q a b source.now target.old (refusal result) target.new }
{
    rows(q, a, b, &source[0..], target)
}
