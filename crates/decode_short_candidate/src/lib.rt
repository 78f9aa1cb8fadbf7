// The candidate of a word of 4, 8, 16 or 32 places: the only message that can be near the word. For each symbol an odd number of votes is
// taken, and the symbol is the value that more than half of them have; the votes for the other values are not counted. The word stands in
// the four-bit lanes of one number, or of two, as swar_lanes packs it.
#![tactic(auto)]

ghost use Rattle.std.specs.Prelude.{◌≡◌, true, ◌%◌, ◌^◌, ◌<◌, ◌≤◌, ◌+◌, ◌-◌, drop, replicate};
ghost use Rattle.code_theory.specs.Question.{is_alphabet};
ghost use Rattle.swar_lanes.specs.Internal.{LanesBelow, lane_bit};
ghost use Rattle.swar_majority.specs.Internal.{three_of, seven_of, fifteen_of, Most};
ghost use Rattle.decode_short_errors.specs.Internal.{SymbolsBelow};
ghost use Rattle.decode_short_candidate.specs.Internal.{Rest, CandidateOf, CandidateOfBoth};

use swar_lanes::{apart, votes_in};

// The word minus the word of a message's first four coefficients, modulo q: the votes for the constant.
fn rest(q: u64, x: u64, symbols: &[u64; 6]) -> u64
    requires { (is_alphabet q ≡ true) × LanesBelow q x × SymbolsBelow q symbols.now }
    ensures { Rest q x symbols.now result }
{
    swar_lanes::less(q, x, decode_short_errors::code(q, symbols))
}

// The symbol in the low bits of a number.
fn symbol(q: u64, x: u64) -> u64
    requires { is_alphabet q ≡ true }
    ensures { result ≡ x % q }
{
    x & (q - 1)
}

// The symbol that two or more of three lanes have: those of the places 0, 2^i and 2^j. This and the two below differ in more than a number:
// each is another circuit over other lanes.
fn three(q: u64, d: u64, i: u32, j: u32) -> u64
    requires { (is_alphabet q ≡ true) × (i < 4) × (j < 4) }
    ensures { Most q 2 (three_of d (2 ^ lane_bit i) (2 ^ lane_bit j)) result }
{
    symbol(q, swar_majority::most_of_3(d, apart(i), apart(j)))
}

// The symbol that four or more of seven lanes have: those of the places with none, one or two of the bits i, j and k set.
fn seven(q: u64, d: u64, i: u32, j: u32, k: u32) -> u64
    requires { (is_alphabet q ≡ true) × (i < j) × (j < k) × (k < 4) }
    ensures { Most q 4 (seven_of d (2 ^ lane_bit i) (2 ^ lane_bit j) (2 ^ lane_bit k)) result }
{
    symbol(q, swar_majority::most_of_7(d, apart(i), apart(j), apart(k)))
}

// The symbol that eight or more of fifteen lanes have: these seven lanes of d, the same seven of e, and the lane of e whose place has all
// three bits set.
fn fifteen(q: u64, d: u64, e: u64, i: u32, j: u32, k: u32) -> u64
    requires { (is_alphabet q ≡ true) × (i < j) × (j < k) × (k < 4) }
    ensures { Most q 8 (fifteen_of d e (2 ^ lane_bit i) (2 ^ lane_bit j) (2 ^ lane_bit k)) result }
{
    symbol(
        q,
        swar_majority::most_of_15(d, e, apart(i), apart(j), apart(k)),
    )
}

// The candidate of a word of 4 places: one vote for each coefficient, and place 0 is the constant.
fn candidate_4(q: u64, x: u64) -> [u64; 6]
    requires { (is_alphabet q ≡ true) × LanesBelow q x }
    ensures symbols { CandidateOf q 2 x result }
    ensures zeros { drop 3 result ≡ replicate 3 0 }
{
    let c0 = symbol(q, votes_in(q, 0, x));
    let c1 = symbol(q, votes_in(q, 1, x));
    [symbol(q, x), c0, c1, 0, 0, 0]
}

// The candidate of a word of 8 places: three of four votes for each coefficient, and three of eight for the constant.
fn candidate_8(q: u64, x: u64) -> [u64; 6]
    requires { (is_alphabet q ≡ true) × LanesBelow q x }
    ensures symbols { CandidateOf q 3 x result }
    ensures zeros { drop 4 result ≡ replicate 2 0 }
{
    let c0 = three(q, votes_in(q, 0, x), 1, 2);
    let c1 = three(q, votes_in(q, 1, x), 0, 2);
    let c2 = three(q, votes_in(q, 2, x), 0, 1);
    let left = rest(q, x, &[0, c0, c1, c2, 0, 0]);
    [three(q, left, 0, 1), c0, c1, c2, 0, 0]
}

// The candidate of a word of 16 places: seven of eight votes for each coefficient, and seven of sixteen for the constant.
fn candidate_16(q: u64, x: u64) -> [u64; 6]
    requires { (is_alphabet q ≡ true) × LanesBelow q x }
    ensures symbols { CandidateOf q 4 x result }
    ensures zeros { drop 5 result ≡ replicate 1 0 }
{
    let c0 = seven(q, votes_in(q, 0, x), 1, 2, 3);
    let c1 = seven(q, votes_in(q, 1, x), 0, 2, 3);
    let c2 = seven(q, votes_in(q, 2, x), 0, 1, 3);
    let c3 = seven(q, votes_in(q, 3, x), 0, 1, 2);
    let left = rest(q, x, &[0, c0, c1, c2, c3, 0]);
    [seven(q, left, 0, 1, 2), c0, c1, c2, c3, 0]
}

// The candidate of a word of 32 places: fifteen of sixteen votes for each coefficient, and fifteen of the first sixteen for the constant.
fn candidate_32(q: u64, x: u64, y: u64) -> [u64; 6]
    requires { (is_alphabet q ≡ true) × LanesBelow q x × LanesBelow q y }
    ensures { CandidateOfBoth q 5 x y result }
{
    let c0 = fifteen(q, votes_in(q, 0, x), votes_in(q, 0, y), 1, 2, 3);
    let c1 = fifteen(q, votes_in(q, 1, x), votes_in(q, 1, y), 0, 2, 3);
    let c2 = fifteen(q, votes_in(q, 2, x), votes_in(q, 2, y), 0, 1, 3);
    let c3 = fifteen(q, votes_in(q, 3, x), votes_in(q, 3, y), 0, 1, 2);
    // For the last coefficient, the partner of a place in x stands in the same lane of y.
    let d = swar_lanes::less(q, y, x);
    let c4 = fifteen(q, d, swar_lanes::partners(3, d), 0, 1, 2);
    let left = rest(q, x, &[0, c0, c1, c2, c3, 0]);
    let a = fifteen(q, left, swar_lanes::partners(3, left), 0, 1, 2);
    [a, c0, c1, c2, c3, c4]
}

// The candidate of a word of 2 ^ M places, where x holds the first sixteen and y the next: the symbols of a message of five coefficients,
// those from M on 0. Each length has a body of its own, since it counts other lanes by another circuit.
pub fn candidate<const M: u32>(q: u64, x: u64, y: u64) -> [u64; 6]
    requires { (is_alphabet q ≡ true) × LanesBelow q x × LanesBelow q y × (2 ≤ M) × (M ≤ 5) }
    ensures symbols { CandidateOfBoth q M x y result }
    ensures first { M ≤ 4 → CandidateOf q M x result }
    ensures zeros { drop (M + 1) result ≡ replicate (5 - M) 0 }
{
    match M {
        2 => candidate_4(q, x),
        3 => candidate_8(q, x),
        4 => candidate_16(q, x),
        _ => candidate_32(q, x, y),
    }
}
