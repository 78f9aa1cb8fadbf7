// Groups of words: interleave (docs/REQUIREMENTS.md: Rearrange) and deinterleave (Put back).
#![tactic(auto)]

ghost use Rattle.std.specs.Prelude.{◌≡◌, true, ℕ, ◌*◌, ◌^◌, ◌⊎◌, refl};
ghost use Rattle.std.proofs.Common.{mul_comm};
ghost use Rattle.code_theory.specs.Question.{is_alphabet};
ghost use Rattle.code_questions.specs.Internal.{refusal};
ghost use Rattle.code_questions.specs.Refusal.{answered, no_values};
ghost use Rattle.interleave_theory.specs.Group.{is_group};
ghost use Rattle.interleave_theory.specs.Internal.{moved_target};
ghost use Rattle.interleave.specs.Interleave.{group_refusal, group_answer, rearrange_target, put_back_target};

use code_questions::{Refusal, ask};

// A way to move a group of `count` words of n places: its source is so many rows of so many symbols, and each becomes a column of the
// target.
trait Way {
    ghost rows: { ℕ → ℕ → ℕ };

    ghost columns: { ℕ → ℕ → ℕ };

    // How many rows there are, and how many symbols each has.
    fn rows(count: usize, n: usize) -> (usize, usize)
        ensures { (result.0 ≡ rows count n) × (result.1 ≡ columns count n) };

    // How many shuffles move two words of sixteen places, or four.
    fn shuffles(count: u32) -> u32
        requires { (count ≡ 2) ⊎ (count ≡ 4) }
        ensures { 2 ^ result ≡ rows count 16 };

    ghost whole: { (count n : ℕ) → rows count n * columns count n ≡ count * n };

    ghost square: { (n : ℕ) → (rows n n ≡ n) × (columns n n ≡ n) };
}

// The words are the rows.
struct Rearrange;

impl Way for Rearrange {
    ghost rows = { λ count n. count };

    ghost columns = { λ count n. n };

    ghost whole = { λ count n. refl };

    ghost square = { λ n. (refl, refl) };

    fn rows(count: usize, n: usize) -> (usize, usize) {
        (count, n)
    }

    fn shuffles(count: u32) -> u32 {
        if count == 2 { 1 } else { 2 }
    }
}

// The places are the rows.
struct PutBack;

impl Way for PutBack {
    ghost rows = { λ count n. n };

    ghost columns = { λ count n. count };

    ghost whole = { λ count n. mul_comm n count };

    ghost square = { λ n. (refl, refl) };

    fn rows(count: usize, n: usize) -> (usize, usize) {
        (n, count)
    }

    fn shuffles(_count: u32) -> u32 {
        4
    }
}

// Question 14: the count of words is from 1 to 16.
#[tactic(auto, unfolding(interleave_theory::specs::Group::is_group))]
fn is_group(count: u32) -> bool
    ensures { result ≡ is_group count }
{
    1 <= count && count <= 16
}

// Moves words of sixteen places, the strap's length. What two, four and sixteen words ask and do is written out for them.
fn move_sixteen<W: Way>(q: u32, count: u32, source: &[u8], target: &mut [u8]) -> Result<(), Refusal>
    requires { is_alphabet q ≡ true }
    ensures answer { refusal result ≡ group_refusal q 4 count source.now target.old }
    ensures buffer { target.new ≡ moved_target (W.rows count 16) (W.columns count 16) q 4 count source.now target.old }
{
    if count == 2 {
        return interleave_checked::small(q, 16, W::shuffles(2), source, target);
    }
    if count == 4 {
        return interleave_checked::small(q, 32, W::shuffles(4), source, target);
    }
    if count == 16 {
        return interleave_checked::square(q, source, target);
    }
    ask(is_group(count), Refusal::Count)?;
    let (rows, columns) = W::rows(count as usize, 16);
    interleave_checked::any_size(q, rows, columns, source, target)
}

// Moves words of any length.
fn move_group<W: Way>(
    q: u32,
    m: u32,
    count: u32,
    source: &[u8],
    target: &mut [u8],
) -> Result<(), Refusal>
    ensures answer { refusal result ≡ group_refusal q m count source.now target.old }
    ensures buffer { target.new ≡ moved_target (W.rows count (2 ^ m)) (W.columns count (2 ^ m)) q m count source.now target.old }
{
    ask(code_questions::is_alphabet(q), Refusal::Alphabet)?;
    if m == 4 {
        return move_sixteen::<W>(q, count, source, target);
    }
    ask(code_questions::is_variables(m), Refusal::Variables)?;
    ask(is_group(count), Refusal::Count)?;
    let (rows, columns) = W::rows(count as usize, code_arith::pow2(m));
    interleave_checked::any_size(q, rows, columns, source, target)
}

// Rearrange: symbol s of word w goes from place w * n + s to place s * count + w.
pub fn interleave(
    q: u32,
    m: u32,
    count: u32,
    source: &[u8],
    target: &mut [u8],
) -> Result<(), Refusal>
    ensures answer { answered no_values result ≡ group_answer q m count source.now target.old }
    ensures buffer { target.new ≡ rearrange_target q m count source.now target.old }
{
    move_group::<Rearrange>(q, m, count, source, target)
}

// Put back: the symbol at place s * count + w goes to place w * n + s again.
pub fn deinterleave(
    q: u32,
    m: u32,
    count: u32,
    source: &[u8],
    target: &mut [u8],
) -> Result<(), Refusal>
    ensures answer { answered no_values result ≡ group_answer q m count source.now target.old }
    ensures buffer { target.new ≡ put_back_target q m count source.now target.old }
{
    move_group::<PutBack>(q, m, count, source, target)
}
