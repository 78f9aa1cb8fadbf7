// An input that comes in chunks becomes lines: what every program that reads lines shares, whatever it makes of them.
#![tactic(auto)]

ghost use Rattle.std.specs.Prelude.{◌≡◌, ◌≤◌, ◌↔◌, [], IsTrue, length};
ghost use Rattle.text_chunks.specs.Kept.{kept_bytes};
ghost use Rattle.text_chunks.specs.Internal.{keep_all};
ghost use Rattle.text_chunks.specs.Reading.{after_failure, after_part};

use std::marker::Model;

// The error of a call that a signal interrupted.
const EINTR: i32 = 4;

// The bytes that are kept of a line that has begun, in a lent slice of 17 bytes: so many tell what any line says. A contract sees the whole
// slice, and how many of its bytes are kept.
#[derive(Drop)]
pub struct Line<'a> {
    bytes: &'a mut [u8],
    len: usize,
}

impl<'a> Model for Line<'a> {
    ghost use Rattle.std.specs.Prelude.{◌≡◌, ◌≤◌, length};
    ghost use Rattle.text_chunks.specs.Kept.{Kept};

    ghost Value = { Kept };

    ghost view = { λ l. record { bytes = l.bytes.now; len = l.len } };

    ghost invariant = { λ l. (l.len ≤ 17) × (length l.bytes.now ≡ 17) };
}

impl<'a> Line<'a> {
    // No byte is kept yet.
    pub fn new(bytes: &'a mut [u8]) -> Line<'a>
        requires { length bytes.old ≡ 17 }
        ensures { result ≡ record { bytes = bytes.old; len = 0 } }
    {
        Line { bytes, len: 0 }
    }

    pub fn is_empty(&self) -> bool
        ensures { IsTrue result ↔ (kept_bytes self.now ≡ []) }
    {
        self.len == 0
    }

    pub fn as_slice(&self) -> &[u8]
        ensures { result.now ≡ kept_bytes self.now }
    {
        &self.bytes[..self.len]
    }

    pub fn clear(&mut self)
        ensures { self.new ≡ record { bytes = self.old.bytes; len = 0 } }
    {
        self.len = 0;
    }

    // Keeps more bytes, as far as there is room for them.
    pub fn keep(&mut self, part: &[u8])
        ensures { kept_bytes self.new ≡ keep_all (kept_bytes self.old) part.now }
    {
        let more = (17 - self.len).min(part.len());
        self.bytes[self.len..self.len + more].copy_from_slice(&part[..more]);
        self.len += more;
    }
}

// What comes after a round of such a program: a read, the rest of this chunk from a place on, or nothing more, since the reading has ended
// or a read failed, with this error. A Result would hold the first three in one more enum.
#[derive(Clone, Copy, Debug, PartialEq, Eq)]
pub enum Next {
    Read,
    Rest(usize),
    End,
    Failed(i32),
}

// What comes after a failed read: another one where a signal only interrupted it.
pub fn after_failure(error: i32) -> Next
    ensures { result ≡ after_failure error }
{
    if error == EINTR {
        return Next::Read;
    }
    Next::Failed(error)
}

// What comes after the bytes of a chunk up to a place.
pub fn after_part(over: bool, at: usize, end: usize) -> Next
    ensures { result ≡ after_part over at end }
{
    if over {
        return Next::End;
    }
    if at == end {
        return Next::Read;
    }
    Next::Rest(at)
}
