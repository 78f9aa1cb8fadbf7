// The votes of a word, sixteen places at a time. Sixteen symbols stand in the four-bit lanes of one number: lane t of number j is place
// 16 j + offset t of the word. The numbers of a long word stand in a lent array of sixteen.
#![tactic(auto)]

ghost use Rattle.std.specs.Prelude.{◌≡◌, true, ◌+◌, ◌*◌, ◌/◌, ◌^◌, ◌<◌, ◌≤◌, length};
ghost use Rattle.code_theory.specs.Sum.{at};
ghost use Rattle.code_theory.specs.Modular.{sub_mod};
ghost use Rattle.code_theory.specs.Question.{is_alphabet};
ghost use Rattle.swar_theory.specs.Internal.{digit};
ghost use Rattle.swar_lanes.specs.Internal.{Lanes, LanesBelow, Within, Low, Held, Loaded, ClearLanes, Blend, lane_bit, VotesIn, VotesWithin, Reach, BallotOf};

// A number with 15 in every lane whose number has bit l clear, and 0 in the others.
fn clear(l: u32) -> u64
    requires { l < 4 }
    ensures { ClearLanes l result }
{
    match l {
        0 => 0x0f0f_0f0f_0f0f_0f0f,
        1 => 0x00ff_00ff_00ff_00ff,
        2 => 0x0000_ffff_0000_ffff,
        _ => 0x0000_0000_ffff_ffff,
    }
}

// The lanes of u where bit l of the lane's number is 0, and those of v where it is 1.
fn blend(l: u32, u: u64, v: u64) -> u64
    requires { l < 4 }
    ensures { Blend l u v result }
{
    let even = clear(l);
    (u & even) + (v & (0xffff_ffff_ffff_ffff - even))
}

// The lanes of y minus those of x modulo q: eight more than the difference is never below 0, and q divides eight.
pub fn less(q: u64, y: u64, x: u64) -> u64
    requires { (is_alphabet q ≡ true) × LanesBelow q y × LanesBelow q x }
    ensures { Lanes result (λ t. sub_mod q (digit 4 y t) (digit 4 x t)) }
{
    (y + 0x8888_8888_8888_8888 - x) & ((q - 1) * 0x1111_1111_1111_1111)
}

// The bit of a lane's number that is bit k of its place, k below 4.
fn lane_bit(k: u32) -> u32
    requires { k < 4 }
    ensures { (result ≡ lane_bit k) × (result < 4) }
{
    (k + 1) & 3
}

// The partner of a place for coefficient k, below 4, stands this many bits further on.
fn lane_step(k: u32) -> u32
    requires { k < 4 }
    ensures { (result ≡ 4 * 2 ^ lane_bit k) × (result < 64) }
{
    4 << lane_bit(k)
}

// The partner of a place for coefficient k, below 4, stands this many lanes further on.
pub fn apart(k: u32) -> u32
    requires { k < 4 }
    ensures { (result ≡ 2 ^ lane_bit k) × (result < 16) }
{
    1 << lane_bit(k)
}

// The lanes of x moved down, so that the partner of a place for coefficient k stands in the lane of that place.
pub fn partners(k: u32, x: u64) -> u64
    requires { k < 4 }
    ensures { result ≡ x / 2 ^ (4 * 2 ^ lane_bit k) }
{
    x >> lane_step(k)
}

// The votes for coefficient k, below 4, of the places that one number holds: each in the lane of its place, whose bit k is 0; the other
// lanes are 0.
pub fn votes_in(q: u64, k: u32, x: u64) -> u64
    requires { (is_alphabet q ≡ true) × (k < 4) × LanesBelow q x }
    ensures { VotesIn q k x result }
{
    less(q, partners(k, x), x) & clear(lane_bit(k))
}

// The sixteen votes for coefficient k, below 4, of the 32 places in a and b: those of a in the lanes of its places whose bit k is 0, those
// of b in the other lanes.
pub fn votes_within(q: u64, k: u32, a: u64, b: u64) -> u64
    requires { (is_alphabet q ≡ true) × LanesBelow q a × LanesBelow q b × (k < 4) }
    ensures { VotesWithin q k a b result × LanesBelow q result }
{
    let l = lane_bit(k);
    let high = blend(l, partners(k, a), b);
    let low = blend(l, a, b << lane_step(k));
    less(q, high, low)
}

// Ballot j for coefficient k, 4 or more: sixteen votes of number i, whose partners stand 2^(k - 4) numbers further on.
fn votes_across(q: u64, k: u32, j: usize, x: &[u64; 16]) -> u64
    requires { Reach q k j x.now × (4 ≤ k) }
    ensures { BallotOf q k j x.now result × LanesBelow q result }
{
    let i = code_arith::nth_clear(k - 4, j);
    less(q, x[i + code_arith::pow2(k - 4)], x[i])
}

// Ballot j for coefficient k: sixteen of the votes, one in each lane.
pub fn ballot(q: u64, k: u32, j: usize, x: &[u64; 16]) -> u64
    requires { Reach q k j x.now }
    ensures { BallotOf q k j x.now result × LanesBelow q result }
{
    if k < 4 {
        return votes_within(q, k, x[2 * j], x[2 * j + 1]);
    }
    votes_across(q, k, j, x)
}

// The sixteen symbols from place 16 j on: the first eight in the even lanes, the second eight in the odd ones.
pub fn sixteen(word: &[u8], j: usize) -> u64
    requires { (16 * j + 16 ≤ length word.now) × (length word.now ≤ 256) × Low word.now }
    ensures { Held word.now (16 * j) result }
{
    swar_bytes::eight(word, 16 * j) + (swar_bytes::eight(word, 16 * j + 8) << 4)
}

// Packs a word of 16 n symbols into the first n numbers.
pub fn load(word: &[u8], x: &mut [u64; 16])
    requires { (length word.now ≤ 256) × Low word.now × (length x.old ≡ 16) }
    ensures { Loaded word.now x.old x.new (length word.now / 16) }
{
    let (packed, _) = x.split_at_mut(word.len() / 16);
    for (j, number) in packed.iter_mut().enumerate() {
        *number = sixteen(word, j);
    }
}
