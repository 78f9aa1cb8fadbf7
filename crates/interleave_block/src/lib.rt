// Groups that are moved through small arrays: their symbols are copied out of the source, shuffled and copied into the target, all at once
// where the group is small, and else in blocks of sixteen words by sixteen places. The arrays have a length that the compiler knows, and it
// keeps what it can of them in registers.
#![tactic(auto)]

ghost use Rattle.std.specs.Prelude.{◌≡◌, ◌+◌, ◌*◌, ◌/◌, ◌%◌, ◌^◌, ◌≤◌, length};
ghost use Rattle.interleave_theory.specs.Place.{transposed};
ghost use Rattle.interleave_theory.specs.Internal.{Transposes};
ghost use Rattle.interleave_block.specs.Internal.{Copied, RowsCopied, Done};

// The n symbols from place i on, copied to place j on. With copy_from_slice, which the compiler leaves as a call, two and four words of
// sixteen places take three times as many instructions and sixteen words of 256 places almost twice as many, which misses the bar of
// docs/BENCHMARKS.md.
fn copy(n: usize, from: &[u8], i: usize, to: &mut [u8], j: usize)
    requires { (i + n ≤ length from.now) × (j + n ≤ length to.old) }
    ensures { Copied n from.now i to.old to.new j }
{
    for k in 0..n {
        to[j + k] = from[i + k];
    }
}

// Sixteen rows of sixteen symbols, one every a places from i on, copied to one every b places from j on. Over chunks of a and of b places
// it is no plainer: the last row of each may be followed by fewer places.
fn copy_rows(from: &[u8], i: usize, a: usize, to: &mut [u8], j: usize, b: usize)
    requires { (i + 15 * a + 16 ≤ length from.now) × (j + 15 * b + 16 ≤ length to.old) × (16 ≤ b) }
    ensures { RowsCopied 16 from.now i a to.old to.new j b }
{
    for r in 0..16 {
        copy(16, from, i + r * a, to, j + r * b);
    }
}

// The first 2 * half places of `row` shuffled. Their halves are taken apart first, so that all 256 places are shuffled, whatever `half` is.
// Where it is written out, the compiler keeps both arrays in registers and leaves out the places that nobody reads.
fn reshuffle(half: usize, apart: &mut [u8], row: &mut [u8])
    requires { (half ≤ 128) × (length apart.old ≡ 256) × (length row.old ≡ 256) }
    ensures places { Transposes 2 half row.old row.new }
    ensures size { (length apart.new ≡ 256) × (length row.new ≡ 256) }
{
    copy(half, row, 0, apart, 0);
    copy(half, row, half, apart, 128);
    interleave_shuffle::shuffle(128, apart, row);
}

// A group of 2 * half symbols shuffled so many times, which transposes 2^times rows. The loop repeats, and goes over nothing.
pub fn shuffle_times(half: usize, times: u32, from: &[u8], to: &mut [u8])
    requires { (half ≤ 128) × (length from.now ≡ 2 * half) × (length to.old ≡ 2 * half) × (2 * half % 2 ^ times ≡ 0) }
    ensures { to.new ≡ transposed (2 ^ times) (2 * half / 2 ^ times) from.now }
{
    let mut apart = [0u8; 256];
    let mut row = [0u8; 256];
    copy(2 * half, from, 0, &mut row, 0);
    for k in 0..times {
        reshuffle(half, &mut apart, &mut row);
    }
    copy(2 * half, &row, 0, to, 0);
}

// Sixteen words of sixteen places rearranged or put back, which is the same: four shuffles, the last of them straight into the target.
pub fn square(from: &[u8], to: &mut [u8])
    requires { (length from.now ≡ 256) × (length to.old ≡ 256) }
    ensures { to.new ≡ transposed 16 16 from.now }
{
    let mut even = [0u8; 256];
    let mut odd = [0u8; 256];
    copy(256, from, 0, &mut even, 0);
    interleave_shuffle::shuffle(128, &even, &mut odd);
    interleave_shuffle::shuffle(128, &odd, &mut even);
    interleave_shuffle::shuffle(128, &even, &mut odd);
    interleave_shuffle::shuffle(128, &odd, to);
}

// Block k of sixteen words of n places rearranged: places 16 * k to 16 * k + 15 of each word.
fn block(n: usize, k: usize, from: &[u8], to: &mut [u8])
    requires { (length from.now ≡ 16 * n) × (16 * k + 16 ≤ n) × Done 16 n (16 * k) 0 from.now to.old }
    ensures { Done 16 n (16 * k) 16 from.now to.new }
{
    let mut rows = [0u8; 256];
    let mut scratch = [0u8; 256];
    let mut columns = [0u8; 256];
    copy_rows(from, 16 * k, n, &mut rows, 0, 16);
    interleave_shuffle::shuffle_four_times(16, &rows, &mut scratch, &mut columns);
    copy(256, &columns, 0, to, 256 * k);
}

// And put back. The rows are taken apart in the target here and in the source above, so that the two share no more than the shuffles.
fn block_back(n: usize, k: usize, from: &[u8], to: &mut [u8])
    requires { (length from.now ≡ n * 16) × (16 * k + 16 ≤ n) × Done n 16 0 (16 * k) from.now to.old }
    ensures { Done n 16 0 (16 * k + 16) from.now to.new }
{
    let mut rows = [0u8; 256];
    let mut scratch = [0u8; 256];
    let mut columns = [0u8; 256];
    copy(256, from, 256 * k, &mut rows, 0);
    interleave_shuffle::shuffle_four_times(16, &rows, &mut scratch, &mut columns);
    copy_rows(&columns, 0, 16, to, 16 * k, n);
}

// Sixteen words of n places rearranged, where n is a multiple of sixteen. Here and in the way back k is the number of a block, which does
// not lie in one piece on both sides.
pub fn blocks(n: usize, from: &[u8], to: &mut [u8])
    requires { (length from.now ≡ 16 * n) × (length to.old ≡ 16 * n) × (n % 16 ≡ 0) }
    ensures { to.new ≡ transposed 16 n from.now }
{
    for k in 0..n / 16 {
        block(n, k, from, to);
    }
}

// And put back.
pub fn blocks_back(n: usize, from: &[u8], to: &mut [u8])
    requires { (length from.now ≡ n * 16) × (length to.old ≡ n * 16) × (n % 16 ≡ 0) }
    ensures { to.new ≡ transposed n 16 from.now }
{
    for k in 0..n / 16 {
        block_back(n, k, from, to);
    }
}
