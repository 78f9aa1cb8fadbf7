// Rows of symbols transposed, in a way that goes by how many rows there are and how long they are.
#![tactic(auto)]

ghost use Rattle.std.specs.Prelude.{◌≡◌, ◌*◌, length};
ghost use Rattle.interleave_theory.specs.Place.{transposed};

// One row, which is a copy.
fn one_row(b: usize, from: &[u8], to: &mut [u8])
    requires { (length from.now ≡ 1 * b) × (length to.old ≡ 1 * b) }
    ensures { to.new ≡ transposed 1 b from.now }
{
    interleave_rows::rows(b, 1, from, to);
}

// Two rows, by one shuffle.
fn two_rows(b: usize, from: &[u8], to: &mut [u8])
    requires { (length from.now ≡ 2 * b) × (length to.old ≡ 2 * b) }
    ensures { to.new ≡ transposed 2 b from.now }
{
    interleave_shuffle::shuffle(b, from, to);
}

// Four rows: by two shuffles up to sixteen symbols, for which a small scratch is enough, and else symbol by symbol.
fn four_rows(b: usize, from: &[u8], to: &mut [u8])
    requires { (length from.now ≡ 4 * b) × (length to.old ≡ 4 * b) }
    ensures { to.new ≡ transposed 4 b from.now }
{
    if b > 16 {
        return interleave_rows::columns(4, b, from, to);
    }
    let mut scratch = [0u8; 64];
    interleave_shuffle::shuffle_twice(b, from, &mut scratch, to);
}

// Sixteen rows: by blocks where they have a multiple of sixteen symbols, at once through one array where they have eight, by four shuffles
// up to four, for which a small scratch is enough, and else symbol by symbol.
fn sixteen_rows(b: usize, from: &[u8], to: &mut [u8])
    requires { (length from.now ≡ 16 * b) × (length to.old ≡ 16 * b) }
    ensures { to.new ≡ transposed 16 b from.now }
{
    if b % 16 == 0 {
        return interleave_block::blocks(b, from, to);
    }
    if b == 8 {
        return interleave_block::shuffle_times(64, 4, from, to);
    }
    if b > 4 {
        return interleave_rows::rows(16, b, from, to);
    }
    let mut scratch = [0u8; 64];
    interleave_shuffle::shuffle_four_times(b, from, &mut scratch, to);
}

// Rows of sixteen symbols: by blocks where their number is a multiple of sixteen, at once through one array where they are eight, and else
// symbol by symbol.
fn sixteen_columns(a: usize, from: &[u8], to: &mut [u8])
    requires { (length from.now ≡ a * 16) × (length to.old ≡ a * 16) }
    ensures { to.new ≡ transposed a 16 from.now }
{
    if a % 16 == 0 {
        return interleave_block::blocks_back(a, from, to);
    }
    if a == 8 {
        return interleave_block::shuffle_times(64, 3, from, to);
    }
    interleave_rows::any_rows(a, 16, from, to);
}

// Rows of a number that has no way of its own: by the length of the rows.
fn other_rows(a: usize, b: usize, from: &[u8], to: &mut [u8])
    requires { (length from.now ≡ a * b) × (length to.old ≡ a * b) }
    ensures { to.new ≡ transposed a b from.now }
{
    match b {
        1 => interleave_rows::rows(a, 1, from, to),
        16 => sixteen_columns(a, from, to),
        _ => interleave_rows::any_rows(a, b, from, to),
    }
}

// Rows of any number and length transposed.
pub fn transpose(a: usize, b: usize, from: &[u8], to: &mut [u8])
    requires { (length from.now ≡ a * b) × (length to.old ≡ a * b) }
    ensures { to.new ≡ transposed a b from.now }
{
    match a {
        1 => one_row(b, from, to),
        2 => two_rows(b, from, to),
        4 => four_rows(b, from, to),
        16 => sixteen_rows(b, from, to),
        _ => other_rows(a, b, from, to),
    }
}
