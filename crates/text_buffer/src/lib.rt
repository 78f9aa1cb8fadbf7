// Text put into a lent buffer, one piece after the other. The place travels beside the buffer: a struct of both would have to say in each
// contract that it still holds the buffer that was lent.
#![tactic(auto)]

ghost use Rattle.std.specs.Prelude.{◌≡◌, [], ◌∷◌, ◌+◌, ◌/◌, ◌%◌, ◌≤◌, ◌<◌, length};
ghost use Rattle.text_buffer.specs.Text.{put, decimal};
ghost use Rattle.text_buffer.specs.Internal.{field};

// Puts the text into the buffer from place `at` on, and returns the place after it.
pub fn put_text(text: &[u8], out: &mut [u8], at: usize) -> usize
    requires { at + length text.now ≤ length out.old }
    ensures place { result ≡ at + length text.now }
    ensures buffer { out.new ≡ put out.old at text.now }
{
    let end = at + text.len();
    out[at..end].copy_from_slice(text);
    end
}

// The digit of a number below 10.
fn digit(n: u32) -> u8
    requires { n ≤ 9 }
    ensures { result ≡ 48 + n }
{
    48 + n as u8
}

// How many decimal digits the number has.
fn digits(n: u32) -> usize
    ensures { result ≡ length (decimal n) }
{
    match n {
        0..=9 => 1,
        10..=99 => 2,
        100..=999 => 3,
        1000..=9999 => 4,
        10000..=99999 => 5,
        100000..=999999 => 6,
        1000000..=9999999 => 7,
        10000000..=99999999 => 8,
        100000000..=999999999 => 9,
        _ => 10,
    }
}

// Puts the two digits of a number below 100.
fn put_pair(n: u32, out: &mut [u8], at: usize)
    requires { (n < 100) × (at + 2 ≤ length out.old) }
    ensures { out.new ≡ put out.old at ((48 + n / 10) ∷ (48 + n % 10) ∷ []) }
{
    out[at] = digit(n / 10);
    out[at + 1] = digit(n % 10);
}

// Puts the number's decimal digits, the last ones first. The loop goes by what is left of the number, two digits a turn.
fn put_decimal(n: u32, out: &mut [u8], at: usize) -> usize
    requires { at + length (decimal n) ≤ length out.old }
    ensures place { result ≡ at + length (decimal n) }
    ensures buffer { out.new ≡ put out.old at (decimal n) }
{
    let end = at + digits(n);
    let mut rest = n;
    let mut place = end;
    while rest >= 100 {
        place -= 2;
        put_pair(rest % 100, out, place);
        rest /= 100;
    }
    if rest < 10 {
        out[at] = digit(rest);
        return end;
    }
    put_pair(rest, out, at);
    end
}

// Puts the number's decimal digits, and the byte that ends them.
pub fn put_field(n: u32, end: u8, out: &mut [u8], at: usize) -> usize
    requires { at + length (field n end) ≤ length out.old }
    ensures place { result ≡ at + length (field n end) }
    ensures buffer { out.new ≡ put out.old at (field n end) }
{
    let next = put_decimal(n, out, at);
    out[next] = end;
    next + 1
}
