// The four-bit lanes of a number that have a value, marked and counted.
#![tactic(auto)]

ghost use Rattle.std.specs.Prelude.{◌≡◌, ◌*◌, ◌<◌};
ghost use Rattle.code_theory.specs.Sum.{sum};
ghost use Rattle.code_theory.specs.Modular.{same};
ghost use Rattle.swar_theory.specs.Internal.{digit};
ghost use Rattle.swar_lanes.specs.Internal.{Lanes, LanesBelow};
ghost use Rattle.swar_count.specs.Internal.{Mask, marked_equal, lanes_equal};

// 1 in each lane that the mask c marks and where d is v, and 0 in the others: a lane of d that is v is 0 after the xor, and only such a
// lane is below 8 after the addition of 7.
fn equal(d: u64, v: u64, c: u64) -> u64
    requires { LanesBelow 8 d × (v < 8) × Mask c }
    ensures { Lanes result (λ t. digit 4 c t * same (digit 4 d t) v) }
{
    ((0xffff_ffff_ffff_ffff - ((d ^ (v * 0x1111_1111_1111_1111)) + 0x7777_7777_7777_7777)) >> 3) & c
}

// The sum of the lanes of p, where it is less than 15: 16 is 1 more than a multiple of 15, so p and the sum are equal modulo 15. What is
// left fits a u32, so that `as` narrows it; try_from would have to be unwrapped.
#[tactic(auto, using(crate::proofs::EqualLaws::total_is))]
pub fn total(p: u64) -> u32
    requires { sum 16 (digit 4 p) < 15 }
    ensures { result ≡ sum 16 (digit 4 p) }
{
    (p % 15) as u32
}

// How many of the lanes that c marks are v in x.
#[tactic(auto, using(crate::proofs::EqualLaws::equal_sum))]
pub fn marked_equal(x: u64, v: u64, c: u64) -> u32
    requires { LanesBelow 8 x × (v < 8) × Mask c × (marked_equal x v c < 15) }
    ensures { result ≡ marked_equal x v c }
{
    total(equal(x, v, c))
}

// How many of all sixteen lanes of x are v.
pub fn lanes_equal(x: u64, v: u64) -> u32
    requires { LanesBelow 8 x × (v < 8) × (lanes_equal x v < 15) }
    ensures { result ≡ lanes_equal x v }
{
    marked_equal(x, v, 0x1111_1111_1111_1111)
}
