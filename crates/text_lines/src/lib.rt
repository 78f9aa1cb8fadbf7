// What a line of input is: a slot, a miss, or malformed; q = 4, m = 4.
#![tactic(auto)]

ghost use Rattle.std.specs.Prelude.{◌≡◌, true, length};
ghost use Rattle.text_lines.specs.Line.{is_digit, is_digits, is_slot, is_miss, word_of, read_line};
ghost use Rattle.text_lines.specs.Internal.{line_of, line_length, has_slot, has_miss};

// What a line says: three cases, none of them an error.
#[derive(Clone, Copy, Debug, PartialEq, Eq)]
pub enum Kind {
    Slot,
    Miss,
    Bad,
}

// Whether the byte is a digit 0 to 3.
#[tactic(auto, unfolding(crate::specs::Line::is_digit))]
fn is_digit(b: u8) -> bool
    ensures { result ≡ is_digit b }
{
    b'0' <= b && b <= b'3'
}

// Whether every byte is a digit 0 to 3. With no early answer the compiler asks many bytes at once.
fn is_digits(line: &[u8]) -> bool
    ensures { result ≡ is_digits line.now }
{
    line.iter().fold(true, |all, b| all & is_digit(*b))
}

// How many bytes stand before the first newline: all where there is none.
pub fn line_length(bytes: &[u8]) -> usize
    ensures { result ≡ line_length bytes.now }
{
    bytes
        .iter()
        .position(|b| *b == b'\n')
        .unwrap_or(bytes.len())
}

// Whether the line is a slot: 16 digits 0 to 3.
#[tactic(auto, unfolding(crate::specs::Line::is_slot))]
fn is_slot(line: &[u8]) -> bool
    ensures { result ≡ is_slot line.now }
{
    line.len() == 16 && is_digits(line)
}

// Whether the line is a miss: `-`.
#[tactic(auto, unfolding(crate::specs::Line::is_miss))]
fn is_miss(line: &[u8]) -> bool
    ensures { result ≡ is_miss line.now }
{
    line.len() == 1 && line[0] == b'-'
}

// What the line is: a slot, a miss, or neither.
pub fn kind_of(line: &[u8]) -> Kind
    ensures { line_of result line.now ≡ read_line line.now }
{
    if is_slot(line) {
        return Kind::Slot;
    }
    if is_miss(line) {
        return Kind::Miss;
    }
    Kind::Bad
}

// Whether the bytes begin with a slot and the newline behind it.
#[tactic(auto, unfolding(crate::specs::Internal::has_slot))]
pub fn has_slot(bytes: &[u8]) -> bool
    ensures { result ≡ has_slot bytes.now }
{
    16 < bytes.len() && (bytes[16] == b'\n' && is_slot(&bytes[..16]))
}

// Whether the first n bytes are a miss and at least one more follows: the newline, where n bytes stand before the first one.
pub fn has_miss(n: usize, bytes: &[u8]) -> bool
    ensures { result ≡ has_miss n bytes.now }
{
    n < bytes.len() && is_miss(&bytes[..n])
}

// Fills the word with the symbols of a slot's digits. The word is written by its index, since the library's contracts say nothing of what a
// zip over `iter_mut` leaves. `..16` leaves nothing out, but without it the compiler stores four digits at a time, and whoever then reads
// eight of the word at once has to wait.
pub fn fill_word(line: &[u8], word: &mut [u8])
    requires { (is_slot line.now ≡ true) × (length word.old ≡ 16) }
    ensures { word.new ≡ word_of line.now }
{
    for (i, digit) in line[..16].iter().enumerate() {
        word[i] = *digit - b'0';
    }
}
