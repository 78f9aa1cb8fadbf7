// Rows of symbols transposed symbol by symbol: a rows of b symbols, of any number and length. The loops count rows and columns, since a
// symbol's place in either slice is worked out from both: over chunks, only one of the two places would go without. `row` and `column` walk
// different slices in order, so what each has done so far is another fact (`Filled`, `Scattered`), and one text for both would be two.
#![tactic(auto)]

ghost use Rattle.std.specs.Prelude.{◌≡◌, ◌+◌, ◌*◌, ◌<◌, length};
ghost use Rattle.interleave_theory.specs.Place.{transposed};
ghost use Rattle.interleave_theory.specs.Internal.{Filled};
ghost use Rattle.interleave_rows.specs.Internal.{Scattered};

// Row s of the target: symbol s of each of the a rows of the source.
fn row(a: usize, b: usize, s: usize, from: &[u8], to: &mut [u8])
    requires { (length from.now ≡ a * b) × (length to.old ≡ a * b) × (s < b) × Filled a b (s * a) from.now to.old }
    ensures places { Filled a b (s * a + a) from.now to.new }
    ensures size { length to.new ≡ length to.old }
{
    let start = s * a;
    for w in 0..a {
        to[start + w] = from[w * b + s];
    }
}

// All symbols, row by row of the target.
pub fn rows(a: usize, b: usize, from: &[u8], to: &mut [u8])
    requires { (length from.now ≡ a * b) × (length to.old ≡ a * b) }
    ensures { to.new ≡ transposed a b from.now }
{
    for s in 0..b {
        row(a, b, s, from, to);
    }
}

// Column w of the target: row w of the source, whose symbol s goes to row s.
fn column(a: usize, b: usize, w: usize, from: &[u8], to: &mut [u8])
    requires { (length from.now ≡ a * b) × (length to.old ≡ a * b) × (w < a) × Scattered a b w 0 from.now to.old }
    ensures places { Scattered a b (w + 1) 0 from.now to.new }
    ensures size { length to.new ≡ length to.old }
{
    let start = w * b;
    for s in 0..b {
        to[s * a + w] = from[start + s];
    }
}

// All symbols, column by column of the target.
pub fn columns(a: usize, b: usize, from: &[u8], to: &mut [u8])
    requires { (length from.now ≡ a * b) × (length to.old ≡ a * b) }
    ensures { to.new ≡ transposed a b from.now }
{
    for w in 0..a {
        column(a, b, w, from, to);
    }
}

// All symbols, with the longer of the two loops inside.
pub fn any_rows(a: usize, b: usize, from: &[u8], to: &mut [u8])
    requires { (length from.now ≡ a * b) × (length to.old ≡ a * b) }
    ensures { to.new ≡ transposed a b from.now }
{
    if a > b {
        return rows(a, b, from, to);
    }
    columns(a, b, from, to);
}
