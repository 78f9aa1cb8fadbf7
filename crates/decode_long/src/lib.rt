// Reading words of 64 places and more by majority-logic decoding (HPL-98-195, section 3.1): all votes are counted, sixteen at a
// time, and the winners are the only message that can be near the word. It reads 32 places too, which decode_short does faster.
#![tactic(auto)]

ghost use Rattle.std.specs.Prelude.{◌≡◌, true, ◌+◌, ◌-◌, ◌^◌, ◌<◌, ◌≤◌, min, length, set};
ghost use Rattle.code_theory.specs.Sum.{at};
ghost use Rattle.code_theory.specs.Question.{is_alphabet};
ghost use Rattle.code_theory.specs.Internal.{WellFormed};
ghost use Rattle.decode_long_tally.specs.Internal.{Units, Tallied, Pairs};
ghost use Rattle.swar_lanes.specs.Internal.{Within, Packed};
ghost use Rattle.decode_reading.specs.Internal.{Settled};
ghost use Rattle.decode_long.specs.Internal.{FirstWinnersOf, Empty, LongCode, LongConstant, Winning};

use decode_long_winner::Winner;
use decode_reading::Reading;

// Puts the winners of the coefficients into the message and returns their least lead.
fn coefficients(q: u32, m: u32, t: &[u64; 8], message: &mut [u8; 9]) -> u32
    requires { (is_alphabet q ≡ true) × (m ≤ 8) × (length message.old ≡ 9) × (at message.old 0 ≡ 0) }
    ensures { FirstWinnersOf q m t.now message.new m result }
{
    let mut least: u32 = 256;
    for (k, tally) in t[..m as usize].iter().enumerate() {
        let r = decode_long_winner::winner_of(q, *tally, 0);
        message[k + 1] = r.symbol as u8;
        least = least.min(r.votes - r.next);
    }
    least
}

// Puts the constant's winner into place 0 of the message.
fn set_constant(n: u32, least: u32, r: Winner, message: &mut [u8; 9]) -> Reading
    requires { (r.symbol < 256) × (r.votes ≤ n) × (r.next ≤ r.votes) × (length message.old ≡ 9) }
    ensures { (message.new ≡ set message.old 0 r.symbol) × (result.wrong ≡ n - r.votes) × (result.margin ≡ min least (r.votes - r.next)) }
{
    message[0] = r.symbol as u8;
    Reading {
        wrong: n - r.votes,
        margin: least.min(r.votes - r.next),
    }
}

// Packs a long word and counts the votes for its coefficients.
fn long_tallies(
    q: u32,
    m: u32,
    word: &[u8],
    table: &[u64; 128],
    x: &mut [u64; 16],
    t: &mut [u64; 8],
)
    requires { WellFormed q m word.now × (5 ≤ m) × Pairs q table.now × Empty x.old × (length t.old ≡ 8) }
    ensures { Within q x.new × Packed (2 ^ (m - 4)) word.now x.new × Tallied q m word.now t.new m }
{
    swar_lanes::load(word, x);
    decode_long_tally::tallies(q as u64, m, table, x, t);
}

// The winner of the constant of a long word: x holds the word, and y is where the code is packed.
fn long_constant(
    q: u32,
    m: u32,
    code: &[u8],
    table: &[u64; 128],
    x: &[u64; 16],
    y: &mut [u64; 16],
) -> Winner
    requires { LongCode q m code.now × Pairs q table.now × Within q x.now × Empty y.old }
    ensures { LongConstant q m code.now x.now result.symbol result.votes result.next }
{
    swar_lanes::load(&code[0..code_arith::pow2(m)], y);
    let half = code_arith::pow2(m - 5);
    let (x1, x2) = x[..2 * half].split_at(half);
    let (y1, y2) = y[..2 * half].split_at(half);
    let t = decode_long_tally::difference_tally(q as u64, table, x1, y1);
    let u = decode_long_tally::difference_tally(q as u64, table, x2, y2);
    decode_long_winner::winner_of(q, t, u)
}

// The winners of a long word.
fn winners_long(q: u32, m: u32, units: &[u64; 8], word: &[u8], message: &mut [u8; 9]) -> Reading
    requires { WellFormed q m word.now × Units units.now × (5 ≤ m) × (length message.old ≡ 9) }
    ensures { Winning q m word.now message.new result.wrong result.margin }
{
    let mut table = [0u64; 128];
    decode_long_tally::pairs(q as usize, units, &mut table);
    let mut x = [0u64; 16];
    let mut t = [0u64; 8];
    long_tallies(q, m, word, &table, &mut x, &mut t);
    message[0] = 0;
    let least = coefficients(q, m, &t, message);
    let mut code = [0u8; 256];
    encode_codeword::write(q, m, message, &mut code);
    let mut y = [0u64; 16];
    let r = long_constant(q, m, &code, &table, &x, &mut y);
    set_constant(word.len() as u32, least, r, message)
}

// Puts the winners of all votes of a long word into the message: the only message that can be near it.
fn winners(q: u32, m: u32, word: &[u8], message: &mut [u8; 9]) -> Reading
    requires { WellFormed q m word.now × (5 ≤ m) × (length message.old ≡ 9) }
    ensures { Winning q m word.now message.new result.wrong result.margin }
{
    let units: [u64; 8] = [
        1,
        256,
        65536,
        16777216,
        4294967296,
        1099511627776,
        281474976710656,
        72057594037927936,
    ];
    winners_long(q, m, &units, word, message)
}

// Reads a word of 32 places or more: fills the message with the winners, where they are near.
pub fn read(q: u32, m: u32, message: &mut [u8], word: &[u8]) -> Option<Reading>
    requires { WellFormed q m word.now × (5 ≤ m) × (length message.old ≡ m + 1) }
    ensures { Settled q m word.now message.old message.new result }
{
    let mut found = [0u8; 9];
    let reading = winners(q, m, word, &mut found);
    if 4 * reading.wrong >= word.len() as u32 {
        return None;
    }
    let n = message.len();
    message.copy_from_slice(&found[..n]);
    Some(reading)
}
