// The sums of the votes for every coefficient at once, q = 4: many samples by rows of eight votes, eight or sixteen in one loop.
#![tactic(auto)]

ghost use Rattle.std.specs.Prelude.{◌≡◌, ◌+◌, ◌*◌, ◌/◌, ◌<◌, ◌≤◌, length};
ghost use Rattle.soft_theory.specs.Numbers.{f32};
ghost use Rattle.soft_theory.specs.Complex.{sample};
ghost use Rattle.soft_theory.specs.Internal.{votes_to};
ghost use Rattle.soft_vote_sums.specs.Pair.{pair};
ghost use Rattle.soft_all_sums.specs.Internal.{Holds, Rows, zeros, SumsTo, votes_of, sums_of, Stored, AllSums};

use soft_vote_sums::{Samples, Sums};

// The terms of eight votes, the real and the imaginary parts apart, so that the compiler works out several at once.
#[derive(Clone, Copy)]
struct Row {
    re: [f32; 8],
    im: [f32; 8],
}

// No terms yet.
fn no_terms() -> Row
    ensures { (length result.re ≡ 8) × (length result.im ≡ 8) }
{
    Row {
        re: [0.0; 8],
        im: [0.0; 8],
    }
}

// The votes at eight places of coefficient k from 8 b on. Four consecutive places stand at four consecutive indices. The loop counts, since
// each index is made of the place's number.
fn eight_votes(samples: Samples, k: u32, b: usize) -> Row
    requires { (2 ≤ k) × (k < samples.m) × (b < length samples.re.now / 16) }
    ensures { Holds samples.entry.re.now samples.entry.im.now k b result 8 }
{
    let mut row = no_terms();
    for x in 0..8usize {
        let i = code_arith::nth_clear(k, 8 * b + x / 4 * 4) + x % 4;
        let z = samples.vote_at(k, 8 * b + x, i);
        row.re[x] = z.re;
        row.im[x] = z.im;
    }
    row
}

// The rows of all coefficients from 2 on. Here and below the loops count, since the number k names the coefficient.
fn put_rows(samples: Samples, b: usize, rows: &mut [Row])
    requires { (b < length samples.re.now / 16) × (length rows.old ≡ 8) }
    ensures { Rows samples.entry.re.now samples.entry.im.now b rows.new samples.entry.m }
{
    for k in 2..samples.m {
        rows[k as usize] = eight_votes(samples, k, b);
    }
}

// The sums of coefficient k plus the eight votes of its row.
fn add_row(samples: Samples, k: u32, b: usize, row: Row, from: Sums) -> Sums
    requires { Holds samples.re.now samples.im.now k b row 8 × (pair from ≡ votes_of samples.re.now samples.im.now (8 * b) k) }
    ensures { pair result ≡ votes_of samples.entry.re.now samples.entry.im.now (8 * (b + 1)) k }
{
    let mut s = from;
    for (re, im) in row.re.iter().zip(&row.im) {
        s = s + Sums { re: *re, im: *im };
    }
    s
}

// The sums of all coefficients from 2 on, eight places of each at a time: the additions of one wait while others go on.
fn high_sums(samples: Samples) -> [Sums; 8]
    requires { 4 ≤ samples.m }
    ensures { SumsTo 2 samples.entry.re.now samples.entry.im.now (length samples.entry.re.now / 2) result samples.entry.m }
{
    let mut all = no_sums();
    let mut rows = [no_terms(); 8];
    for b in 0..samples.re.len() / 16 {
        put_rows(samples, b, &mut rows);
        for k in 2..samples.m {
            let i = k as usize;
            all[i] = add_row(samples, k, b, rows[i], all[i]);
        }
    }
    all
}

// The sums of the coefficients below end, one after the other, put before those that are there.
fn low_sums(samples: Samples, end: u32, from: [Sums; 8]) -> [Sums; 8]
    requires { (end ≤ samples.m) × (length from ≡ 8) }
    ensures { Stored (sums_of samples.entry.m samples.entry.re.now samples.entry.im.now) 0 from result end }
{
    let mut all = from;
    for k in 0..end {
        all[k as usize] = samples.vote_sums(k);
    }
    all
}

// No sums yet.
fn no_sums() -> [Sums; 8]
    ensures { result ≡ zeros }
{
    [Sums { re: 0.0, im: 0.0 }; 8]
}

// 2, the first coefficient that has a row, by a test that the compiler cannot settle: code made for just two coefficients is slower
// (docs/DECISIONS.md).
fn low_end(m: u32) -> u32
    requires { 2 ≤ m }
    ensures { result ≡ 2 }
{
    if m < 2 { m } else { 2 }
}

// The sums of all coefficients where there are more than sixteen samples.
fn many_sums(samples: Samples) -> [Sums; 8]
    requires { 5 ≤ samples.m }
    ensures { AllSums samples.entry.m samples.entry.re.now samples.entry.im.now result }
{
    low_sums(samples, low_end(samples.m), high_sums(samples))
}

// The sums of coefficient k plus the vote at place j.
fn more(samples: Samples, k: u32, j: usize, s: Sums) -> Sums
    requires { (k < samples.m) × (j < length samples.re.now / 2) × (pair s ≡ votes_of samples.re.now samples.im.now j k) }
    ensures { pair result ≡ votes_of samples.entry.re.now samples.entry.im.now (j + 1) k }
{
    s + samples.vote_at(k, j, code_arith::nth_clear(k, j))
}

// The sums of all coefficients, of which there are N, in one loop over the places: the additions of one wait while others go on. The
// compiler writes both loops out, since it knows N.
fn few_sums<const N: u32>(samples: Samples) -> [Sums; 8]
    requires { (samples.m ≡ N) × (N ≤ 8) × (1 ≤ N) }
    ensures { AllSums N samples.entry.re.now samples.entry.im.now result }
{
    let mut few = no_sums();
    for j in 0..code_arith::pow2(N - 1) {
        for k in 0..N {
            let i = k as usize;
            few[i] = more(samples, k, j, few[i]);
        }
    }
    few
}

// The sums of the votes for every coefficient of eight samples or more; those past the last are zeros.
pub fn all_sums(samples: Samples) -> [Sums; 8]
    requires { 3 ≤ samples.m }
    ensures { AllSums samples.entry.m samples.entry.re.now samples.entry.im.now result }
{
    match samples.m {
        3 => few_sums::<3>(samples),
        4 => few_sums::<4>(samples),
        _ => many_sums(samples),
    }
}
