// The session list: reads the lines of a session from standard input and lists them on standard output. What is listed for the bytes of a
// read, and what comes next, is decided by list_stream::list_round; here are only the calls of the system. A read or a write that fails
// ends the list and says so on standard error: a list that is cut short looks like a whole one.
#![tactic(auto)]

ghost use Rattle.std.specs.Prelude.{◌≡◌, ◌≤◌, [], length, is_some, IfSome};
ghost use Rattle.text_chunks.specs.Kept.{kept_bytes};
ghost use Rattle.text_chunks.specs.Reading.{given};
ghost use Rattle.text_chunks.specs.Internal.{rest_place, goes_on, IfRest};

use std::fmt::InlineText;
use std::io;
use std::io::{Read, Write};
use text_chunks::{Line, Next};

// The error of a failed read of which the system says no more.
const EIO: i32 = 5;

// The room for an error's text: std takes at most 256 bytes of the system's words, and puts at most 23 behind them for the number.
const ERROR_LEN: usize = 288;

// Where the listing stands: what the last read gave, the number of its bytes or its error; and the place in the chunk up to which it is
// listed.
#[derive(Clone, Copy, Debug, PartialEq, Eq)]
struct Place {
    read: Result<usize, i32>,
    at: usize,
}

// Reads a chunk.
#[tactic(auto, unfolding(text_chunks::specs::Reading::given))]
fn read(rt: &HostRuntime, chunk: &mut [u8]) -> Place
    ensures { (given result.read ≤ length chunk.new) × (result.at ≡ 0) }
{
    Place {
        read: rt
            .stdin()
            .read(chunk)
            .map_err(|e| e.raw_os_error().unwrap_or(EIO)),
        at: 0,
    }
}

// Says on standard error what failed and the system's words for it, without the number that std puts behind them.
fn tell(rt: &HostRuntime, doing: &str, error: io::Error) -> io::Result<()> {
    let text = InlineText::<ERROR_LEN>::of(error);
    let all = text.as_str();
    let words = match all.split_once(" (os error ") {
        Some((words, _)) => words,
        None => all,
    };
    eprintln!(rt; "session_list: {doing}: {words}")
}

// Does what comes next after a round on a chunk, from a place of it on: the place to go on from, or none where the listing ends. A failed
// read is told.
#[tactic(auto, unfolding(text_chunks::specs::Internal::rest_place, text_chunks::specs::Internal::goes_on, text_chunks::specs::Internal::IfRest))]
fn go_on(rt: &HostRuntime, next: Next, place: Place, chunk: &mut [u8]) -> Option<Place>
    requires { (given place.read ≤ length chunk.old) × (rest_place next ≤ given place.read) }
    ensures ends { is_some result ≡ goes_on next }
    ensures bounds { IfSome result (λ p. (given p.read ≤ length chunk.new) × (p.at ≤ given p.read)) }
    ensures place { IfSome result (λ p. p.at ≡ rest_place next) }
    ensures rest { IfRest next (IfSome result (λ p. p.read ≡ place.read) × (chunk.new ≡ chunk.old)) }
{
    match next {
        Next::Read => Some(read(rt, chunk)),
        Next::Rest(at) => Some(Place { at, ..place }),
        Next::End => None,
        Next::Failed(error) => {
            let _ = tell(rt, "reading", io::Error::from_raw_os_error(error));
            None
        }
    }
}

// Writes the first bytes of the output; a write that fails is told.
fn write(rt: &HostRuntime, out: &[u8], n: usize) -> bool
    requires { n ≤ length out.now }
{
    match Write::write_all(&mut rt.stdout(), &out[..n]) {
        Ok(()) => true,
        Err(e) => {
            let _ = tell(rt, "writing", e);
            false
        }
    }
}

// Lists the input from its first byte on, with no line begun. A proved loop has to end, so it takes no more rounds than a number that no run
// uses up.
fn list_all(rt: &HostRuntime, chunk: &mut [u8], line: &mut Line, out: &mut [u8])
    requires { (kept_bytes line.old ≡ []) × (64 ≤ length out.old) }
{
    let mut lister = list_stream::start();
    let mut place = read(rt, chunk);
    for _ in 0..u64::MAX {
        let round = list_stream::list_round(lister, line, place.read, chunk, place.at, out);
        if !write(rt, out, round.written) {
            return;
        }
        let Some(next) = go_on(rt, round.next, place, chunk) else {
            return;
        };
        lister = round.lister;
        place = next;
    }
}

// Writes the header, and lists the input.
fn list_session(rt: &HostRuntime, chunk: &mut [u8], line: &mut Line, out: &mut [u8])
    requires { (kept_bytes line.old ≡ []) × (64 ≤ length out.old) }
{
    let written = list_line::put_header(out, 0);
    if !write(rt, out, written) {
        return;
    }
    list_all(rt, chunk, line, out);
}

fn main(rt: HostRuntime) {
    let mut chunk = [0u8; 1 << 16];
    let mut line = [0u8; 17];
    let mut out = [0u8; 1 << 16];
    list_session(&rt, &mut chunk, &mut Line::new(&mut line), &mut out);
}
