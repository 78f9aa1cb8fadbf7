// Rows of symbols transposed by shuffles. One shuffle takes the symbols of two halves in turn, and so it transposes two rows; two shuffles
// transpose four rows, and four of them sixteen. The compiler makes vector code of the loop.
#![tactic(auto)]

ghost use Rattle.std.specs.Prelude.{◌≡◌, ◌*◌, ◌≤◌, length};
ghost use Rattle.interleave_theory.specs.Internal.{Transposes};

// The symbols of the two halves of `from` in turn. Nothing is promised of the places of `to` behind these. The index counts pairs: chunks
// of two places zipped with both halves are no plainer, since each pair is then named place by place all the same.
pub fn shuffle(half: usize, from: &[u8], to: &mut [u8])
    requires { (2 * half ≤ length from.now) × (2 * half ≤ length to.old) }
    ensures places { Transposes 2 half from.now to.new }
    ensures size { length to.new ≡ length to.old }
{
    for i in 0..half {
        to[2 * i] = from[i];
        to[2 * i + 1] = from[half + i];
    }
}

// Four rows of b symbols transposed.
pub fn shuffle_twice(b: usize, from: &[u8], scratch: &mut [u8], to: &mut [u8])
    requires { (4 * b ≤ length from.now) × (4 * b ≤ length scratch.old) × (4 * b ≤ length to.old) }
    ensures places { Transposes 4 b from.now to.new }
    ensures size { length to.new ≡ length to.old }
{
    shuffle(2 * b, from, scratch);
    shuffle(2 * b, scratch, to);
}

// Sixteen rows of b symbols transposed.
pub fn shuffle_four_times(b: usize, from: &[u8], scratch: &mut [u8], to: &mut [u8])
    requires { (16 * b ≤ length from.now) × (16 * b ≤ length scratch.old) × (16 * b ≤ length to.old) }
    ensures places { Transposes 16 b from.now to.new }
    ensures size { length to.new ≡ length to.old }
{
    shuffle(8 * b, from, scratch);
    shuffle(8 * b, scratch, to);
    shuffle(8 * b, to, scratch);
    shuffle(8 * b, scratch, to);
}
