// The value that most of 3, 7 or 15 lanes of four bits have, with no loop: a full adder on whole numbers counts the bits of the lanes,
// one count at each bit of a number. The three sizes are three circuits, which share the adder and no more.
#![tactic(auto)]

ghost use Rattle.std.specs.Prelude.{◌+◌, ◌<◌};
ghost use Rattle.swar_majority.specs.Internal.{three_of, seven_of, fifteen_of, Most, Parity, Carry, Down, Counted};

// At each bit, the low bit of the sum of three bits.
#[tactic(auto, using(crate::proofs::BitLaws::parity_is))]
fn parity(a: u64, b: u64, c: u64) -> u64
    ensures { Parity a b c result }
{
    a ^ b ^ c
}

// At each bit, the high bit of the sum of three bits.
#[tactic(auto, using(crate::proofs::BitLaws::carry_is))]
fn carry(a: u64, b: u64, c: u64) -> u64
    ensures { Carry a b c result }
{
    (a & b) | (c & (a ^ b))
}

// The lanes of d from lane a on: lane a is moved to lane 0.
#[tactic(auto, using(crate::proofs::BitLaws::down_is))]
fn down(d: u64, a: u32) -> u64
    requires { a < 16 }
    ensures { Down d a result }
{
    d >> (4 * a)
}

// At each bit, a count of up to seven: its three bits stand in three numbers.
#[derive(Clone, Copy)]
pub struct Count {
    pub ones: u64,
    pub twos: u64,
    pub fours: u64,
}

// At each bit, counts the lanes among 0, a, b, a + b, c, c + a and c + b that have it set.
#[tactic(auto, using(crate::proofs::BitLaws::counted))]
fn seven(d: u64, a: u32, b: u32, c: u32) -> Count
    requires { a + b + c < 16 }
    ensures { Counted d a b c result.ones result.twos result.fours }
{
    let s = parity(d, down(d, a), down(d, b));
    let t = carry(d, down(d, a), down(d, b));
    let e = down(d, a + b);
    let p = carry(s, down(s, c), e);
    Count {
        ones: parity(s, down(s, c), e),
        twos: parity(t, down(t, c), p),
        fours: carry(t, down(t, c), p),
    }
}

// The value that two or more of the lanes 0, a and b have.
#[tactic(auto, using(crate::proofs::MostLaws::most_three))]
pub fn most_of_3(d: u64, a: u32, b: u32) -> u64
    requires { (a < 16) × (b < 16) }
    ensures { Most 8 2 (three_of d a b) result }
{
    carry(d, down(d, a), down(d, b)) & 7
}

// The value that four or more of the seven lanes 0, a, b, a + b, c, c + a and c + b have.
#[tactic(auto, using(crate::proofs::MostLaws::most_seven))]
pub fn most_of_7(d: u64, a: u32, b: u32, c: u32) -> u64
    requires { a + b + c < 16 }
    ensures { Most 8 4 (seven_of d a b c) result }
{
    seven(d, a, b, c).fours & 7
}

// The value that eight or more of fifteen lanes have: these seven lanes of d, the same seven of e, and lane a + b + c of e.
#[tactic(auto, using(crate::proofs::MostLaws::most_fifteen))]
pub fn most_of_15(d: u64, e: u64, a: u32, b: u32, c: u32) -> u64
    requires { a + b + c < 16 }
    ensures { Most 8 8 (fifteen_of d e a b c) result }
{
    let f = seven(d, a, b, c);
    let g = seven(e, a, b, c);
    let x = carry(f.ones, g.ones, down(e, a + b + c));
    let y = carry(f.twos, g.twos, x);
    carry(f.fours, g.fours, y) & 7
}
