// The session list of an input that comes in chunks. What is kept between them does not grow with the input.
#![tactic(auto)]

ghost use Rattle.std.specs.Prelude.{◌≡◌, false, ◌≤◌, length, take};
ghost use Rattle.text_buffer.specs.Text.{put};
ghost use Rattle.list_line.specs.Listing.{opened};
ghost use Rattle.text_chunks.specs.Chunks.{fed, fed_text, fed_count, end_text};
ghost use Rattle.text_chunks.specs.Kept.{kept_bytes};
ghost use Rattle.text_chunks.specs.Reading.{given};
ghost use Rattle.list_stream.specs.Stream.{reader, progress, Fit};
ghost use Rattle.list_stream.specs.Rounds.{Part, RoundOf};
ghost use Rattle.list_stream.specs.Internal.{Ended, Goes, Reads};

use list_line::Listed;
use session::Receiver;
use text_chunks::{Line, Next};

// A listing on its way: the session, and whether the reading has ended; the session is told either way, so `over` stands beside it. What is
// kept of the line that has begun goes with it in a `Line`.
#[derive(Clone, Copy, Debug, PartialEq, Eq)]
pub struct Lister {
    pub receiver: Receiver,
    pub over: bool,
}

// What some bytes leave: the lister, the place behind their output, and how many they were.
#[derive(Clone, Copy, Debug, PartialEq, Eq)]
struct Step {
    lister: Lister,
    next: usize,
    read: usize,
}

// What a chunk leaves: the lister, how many of its bytes were read, and how many bytes of output they brought.
#[derive(Clone, Copy, Debug, PartialEq, Eq)]
struct Fed {
    lister: Lister,
    read: usize,
    written: usize,
}

// Opens the session.
pub fn start() -> Lister
    ensures { (result.receiver ≡ opened) × (result.over ≡ false) }
{
    // Never refused: q = 4 and m = 4.
    let receiver = Receiver::open(4, 4).unwrap_or(Receiver {
        q: 4,
        m: 4,
        reference: None,
        used: 0,
    });
    Lister {
        receiver,
        over: false,
    }
}

// What a line that is listed leaves.
fn after_line(listed: Listed, read: usize) -> Step
    requires { (listed.receiver.q ≡ 4) × (listed.receiver.m ≡ 4) }
    ensures { Ended listed read result }
{
    Step {
        lister: Lister {
            receiver: list_line::with_code(listed.receiver),
            over: listed.over,
        },
        next: listed.next,
        read,
    }
}

// Reads to the end of the line, or of the bytes. A miss is listed where it stands.
fn read_part(lister: Lister, line: &mut Line, bytes: &[u8], out: &mut [u8], at: usize) -> Step
    requires { Goes lister bytes.now out.old at }
    ensures { Reads (progress lister (kept_bytes line.old)) bytes.now out.old at result (kept_bytes line.new) out.new }
{
    let n = text_lines::line_length(bytes);
    if line.is_empty() && text_lines::has_miss(n, bytes) {
        return after_line(list_line::list_miss(lister.receiver, out, at), 2);
    }
    line.keep(&bytes[..n]);
    if n == bytes.len() {
        return Step {
            lister,
            next: at,
            read: n,
        };
    }
    let listed = list_line::list_line(lister.receiver, line.as_slice(), out, at);
    line.clear();
    after_line(listed, n + 1)
}

// Reads to the end of the line, or of the bytes. A slot is listed where it stands.
fn read_line(lister: Lister, line: &mut Line, bytes: &[u8], out: &mut [u8], at: usize) -> Step
    requires { Goes lister bytes.now out.old at }
    ensures { Reads (progress lister (kept_bytes line.old)) bytes.now out.old at result (kept_bytes line.new) out.new }
{
    if line.is_empty() && text_lines::has_slot(bytes) {
        return after_line(
            list_line::list_slot(lister.receiver, &bytes[..16], out, at),
            17,
        );
    }
    read_part(lister, line, bytes, out, at)
}

// The loop counts nothing: each turn reads a line. It lists the bytes of a chunk, up to its end, the end of the reading, or the byte before
// which the buffer has no room for a line.
fn feed(lister: Lister, line: &mut Line, chunk: &[u8], out: &mut [u8]) -> Fed
    requires { Fit lister }
    ensures state { progress result.lister (kept_bytes line.new) ≡ fed reader (progress lister (kept_bytes line.old)) (take result.read chunk.now) }
    ensures count { result.written ≡ length (fed_text reader (progress lister (kept_bytes line.old)) (take result.read chunk.now)) }
    ensures buffer { out.new ≡ put out.old 0 (fed_text reader (progress lister (kept_bytes line.old)) (take result.read chunk.now)) }
    ensures read { result.read ≡ fed_count reader (progress lister (kept_bytes line.old)) (length out.old) chunk.now }
    ensures bounds { (result.read ≤ length chunk.now) × (result.written ≤ length out.new) }
    ensures fit { Fit result.lister }
{
    let mut fed = Fed {
        lister,
        read: 0,
        written: 0,
    };
    while fed.read < chunk.len() && !fed.lister.over && 64 <= out.len() - fed.written {
        let step = read_line(fed.lister, line, &chunk[fed.read..], out, fed.written);
        fed = Fed {
            lister: step.lister,
            read: fed.read + step.read,
            written: step.next,
        };
    }
    fed
}

// Lists the last line, which lacks its newline, at the end of the input.
fn finish(lister: Lister, line: &Line, out: &mut [u8]) -> usize
    requires { Fit lister × (64 ≤ length out.old) }
    ensures count { result ≡ length (end_text reader (progress lister (kept_bytes line.now))) }
    ensures buffer { out.new ≡ put out.old 0 (end_text reader (progress lister (kept_bytes line.now))) }
    ensures bound { result ≤ length out.new }
{
    if lister.over {
        return 0;
    }
    if line.is_empty() {
        return 0;
    }
    list_line::list_line(lister.receiver, line.as_slice(), out, 0).next
}

// What a round leaves: the lister, how many bytes of the output are to be written, and what comes next.
#[derive(Clone, Copy, Debug, PartialEq, Eq)]
pub struct Round {
    pub lister: Lister,
    pub written: usize,
    pub next: Next,
}

// Lists the bytes from a place on, as far as the output has room.
fn list_part(lister: Lister, line: &mut Line, bytes: &[u8], at: usize, out: &mut [u8]) -> Round
    requires { Fit lister × (at ≤ length bytes.now) }
    ensures { Part (progress lister (kept_bytes line.old)) (kept_bytes line.new) bytes.now at out.old out.new result }
{
    let fed = feed(lister, line, &bytes[at..], out);
    Round {
        lister: fed.lister,
        written: fed.written,
        next: text_chunks::after_part(fed.lister.over, at + fed.read, bytes.len()),
    }
}

// One round of the program, by what its last read gave: so many bytes of the chunk, of which those before a place are listed, 0 at the end
// of the input; or the error of a read that failed.
pub fn list_round(
    lister: Lister,
    line: &mut Line,
    read: Result<usize, i32>,
    chunk: &[u8],
    at: usize,
    out: &mut [u8],
) -> Round
    requires { Fit lister × (64 ≤ length out.old) × (given read ≤ length chunk.now) × (at ≤ given read) }
    ensures { RoundOf read lister line.old line.new chunk.now at out.old out.new result }
{
    match read {
        Err(error) => Round {
            lister,
            written: 0,
            next: text_chunks::after_failure(error),
        },
        Ok(0) => Round {
            lister,
            written: finish(lister, line, out),
            next: Next::End,
        },
        Ok(n) => list_part(lister, line, &chunk[..n], at, out),
    }
}
