// The session list: one line of input in, the session after it and one line of output out.
#![tactic(auto)]

ghost use Rattle.std.specs.Prelude.{◌≡◌, true, [], ◌∷◌, ◌++◌, ◌+◌, ◌≤◌, length};
ghost use Rattle.text_buffer.specs.Text.{put};
ghost use Rattle.text_buffer.specs.Internal.{field};
ghost use Rattle.text_lines.specs.Line.{is_slot, word_of, read_line};
ghost use Rattle.text_lines.specs.Line as L;
ghost use Rattle.list_line.specs.Listing.{header, zone_text, reading_text, blank, line_text, line_session, line_ends};
ghost use Rattle.list_line.specs.Internal.{Ready};

use session::{Delivery, Receiver};
use text_lines::Kind;

// What a line leaves: the session after it, the place behind its output, and whether it ends the reading. The session and the place are
// told either way, so `over` stands beside them.
#[derive(Clone, Copy, Debug, PartialEq, Eq)]
pub struct Listed {
    pub receiver: Receiver,
    pub next: usize,
    pub over: bool,
}

// The same session, its code written out: where the compiler knows q and m it makes code for them.
pub fn with_code(receiver: Receiver) -> Receiver
    requires { (receiver.q ≡ 4) × (receiver.m ≡ 4) }
    ensures { result ≡ receiver }
{
    Receiver {
        q: 4,
        m: 4,
        ..receiver
    }
}

// Puts the header.
pub fn put_header(out: &mut [u8], at: usize) -> usize
    requires { at + 64 ≤ length out.old }
    ensures place { result ≡ at + length header }
    ensures buffer { out.new ≡ put out.old at header }
{
    text_buffer::put_text(b"ms rate zone wrong margin\n", out, at)
}

// Puts the time of a slot, a space, and what became of the slot.
fn put_event(ms: u32, event: &[u8], out: &mut [u8], at: usize) -> usize
    requires { at + 11 + length event.now ≤ length out.old }
    ensures place { result ≡ at + length (field ms 32 ++ event.now) }
    ensures buffer { out.new ≡ put out.old at (field ms 32 ++ event.now) }
{
    let next = text_buffer::put_field(ms, b' ', out, at);
    text_buffer::put_text(event, out, next)
}

// Puts the zone, or `-` where there is none, and a space.
fn put_zone(zone: Option<u8>, out: &mut [u8], at: usize) -> usize
    requires { at + 11 ≤ length out.old }
    ensures place { result ≡ at + length (zone_text zone ++ (32 ∷ [])) }
    ensures buffer { out.new ≡ put out.old at (zone_text zone ++ (32 ∷ [])) }
    ensures small { result ≤ at + 11 }
{
    match zone {
        Some(d) => text_buffer::put_field(u32::from(d), b' ', out, at),
        None => text_buffer::put_text(b"- ", out, at),
    }
}

// Puts the output for a word that is read.
#[tactic(auto, using(crate::proofs::TextLaws::field_length))]
fn put_reading(rate: u8, delivery: Delivery, out: &mut [u8], at: usize) -> usize
    requires { at + 64 ≤ length out.old }
    ensures place { result ≡ at + length (reading_text delivery.time rate delivery.zone delivery.wrong delivery.margin) }
    ensures buffer { out.new ≡ put out.old at (reading_text delivery.time rate delivery.zone delivery.wrong delivery.margin) }
{
    let second = text_buffer::put_field(delivery.time, b' ', out, at);
    let third = text_buffer::put_field(u32::from(rate), b' ', out, second);
    let fourth = put_zone(delivery.zone, out, third);
    let fifth = text_buffer::put_field(delivery.wrong, b' ', out, fourth);
    text_buffer::put_field(delivery.margin, b'\n', out, fifth)
}

// Lists a word: its slot is read or doubtful, or the session is full. The message slice is room for Receive. The refusal is told first: of
// a match within a match the compiler copied the unused bytes of a `Listed` twice, each copy waiting for stores just before it.
fn list_word(
    receiver: Receiver,
    word: &[u8],
    message: &mut [u8],
    out: &mut [u8],
    at: usize,
) -> Listed
    requires { Ready receiver out.old at × (message.old ≡ blank) }
    ensures session { result.receiver ≡ line_session receiver (L.slot word.now) }
    ensures ends { result.over ≡ line_ends receiver (L.slot word.now) }
    ensures place { result.next ≡ at + length (line_text receiver (L.slot word.now)) }
    ensures buffer { out.new ≡ put out.old at (line_text receiver (L.slot word.now)) }
{
    let Ok(received) = receiver.receive(message, word) else {
        return Listed {
            receiver,
            next: text_buffer::put_text(b"over\n", out, at),
            over: true,
        };
    };
    match received.delivery {
        Some(delivery) => {
            let rate = strap::rate_of(message);
            Listed {
                receiver: received.receiver,
                next: put_reading(rate, delivery, out, at),
                over: false,
            }
        }
        None => Listed {
            receiver: received.receiver,
            next: put_event(session::slot_time(receiver.used), b"doubtful\n", out, at),
            over: false,
        },
    }
}

// Lists a line of 16 digits.
pub fn list_slot(receiver: Receiver, line: &[u8], out: &mut [u8], at: usize) -> Listed
    requires { Ready receiver out.old at × (is_slot line.now ≡ true) }
    ensures session { result.receiver ≡ line_session receiver (L.slot (word_of line.now)) }
    ensures ends { result.over ≡ line_ends receiver (L.slot (word_of line.now)) }
    ensures place { result.next ≡ at + length (line_text receiver (L.slot (word_of line.now))) }
    ensures buffer { out.new ≡ put out.old at (line_text receiver (L.slot (word_of line.now))) }
{
    let mut word = [0u8; 16];
    text_lines::fill_word(line, &mut word);
    let mut message = [0u8; 5];
    list_word(with_code(receiver), &word, &mut message, out, at)
}

// Lists a miss.
pub fn list_miss(receiver: Receiver, out: &mut [u8], at: usize) -> Listed
    requires { Ready receiver out.old at }
    ensures session { result.receiver ≡ line_session receiver L.miss }
    ensures ends { result.over ≡ line_ends receiver L.miss }
    ensures place { result.next ≡ at + length (line_text receiver L.miss) }
    ensures buffer { out.new ≡ put out.old at (line_text receiver L.miss) }
{
    match receiver.miss() {
        Ok(next) => Listed {
            receiver: next,
            next: put_event(session::slot_time(receiver.used), b"missed\n", out, at),
            over: false,
        },
        Err(_) => Listed {
            receiver,
            next: text_buffer::put_text(b"over\n", out, at),
            over: true,
        },
    }
}

// Lists one line of input: puts its output from place `at` on.
pub fn list_line(receiver: Receiver, line: &[u8], out: &mut [u8], at: usize) -> Listed
    requires { Ready receiver out.old at }
    ensures session { result.receiver ≡ line_session receiver (read_line line.now) }
    ensures ends { result.over ≡ line_ends receiver (read_line line.now) }
    ensures place { result.next ≡ at + length (line_text receiver (read_line line.now)) }
    ensures buffer { out.new ≡ put out.old at (line_text receiver (read_line line.now)) }
{
    match text_lines::kind_of(line) {
        Kind::Slot => list_slot(receiver, line, out, at),
        Kind::Miss => list_miss(receiver, out, at),
        Kind::Bad => Listed {
            receiver,
            next: text_buffer::put_text(b"bad\n", out, at),
            over: false,
        },
    }
}
