// The samples turned back by the quarter turns that the coefficients ask for, and their two sums, q = 4.
#![tactic(auto)]

ghost use Rattle.std.specs.Prelude.{◌≡◌, ◌<◌, ◌≤◌, length};
ghost use Rattle.code_theory.specs.Sum.{at};
ghost use Rattle.encode_codeword.specs.Internal.{Written};
ghost use Rattle.soft_theory.specs.Numbers.{f32};
ghost use Rattle.soft_theory.specs.Complex.{sample, turn_back};
ghost use Rattle.soft_theory.specs.Soft.{constant_sums};
ghost use Rattle.soft_vote_sums.specs.Pair.{pair};
ghost use Rattle.soft_constant_sums.specs.Internal.{Coefficients, coefficients_in, Turns};

use soft_vote_sums::{Samples, Sums};

// The quarter turns that the coefficients in found ask for at each index: the word of found, whose constant is 0. The other places stay.
pub fn quarter_turns(m: u32, found: &[u8], turns: &mut [u8])
    requires { (2 ≤ m) × (m ≤ 8) × Coefficients m found.now × (length turns.old ≡ 256) }
    ensures { Written 4 m found.now turns.old turns.new × Turns m found.now turns.new }
{
    encode_codeword::write(4, m, found, turns);
}

// z turned back by t quarter turns, by a table of the four signed parts: there is no branch that the turns could mislead.
fn turn_back(t: u8, z: Sums) -> Sums
    requires { t < 4 }
    ensures { pair result ≡ turn_back f32 t (pair z) }
{
    let parts = [z.re, z.im, -z.re, -z.im];
    let i = usize::from(t);
    Sums {
        re: parts[i],
        im: parts[(i + 1) & 3],
    }
}

// Both sums of all samples, each turned back by its quarter turns, upward.
pub fn constant_sums(samples: Samples, found: &[u8], turns: &[u8]) -> Sums
    requires { Turns samples.m found.now turns.now }
    ensures { pair result
        ≡ constant_sums f32 samples.entry.m (coefficients_in found.now) (sample f32 samples.entry.re.now samples.entry.im.now) }
{
    let mut all = Sums { re: 0.0, im: 0.0 };
    for (i, turn) in turns[..samples.re.len()].iter().enumerate() {
        all = all + turn_back(*turn, samples.at(i));
    }
    all
}

// The same sums of four samples, one by one: their quarter turns are none, a_0, a_1 and a_0 + a_1. No votes are
// summed, as by the function of this name in soft_vote_sums.
pub fn four_sums(samples: Samples, found: &[u8]) -> Sums
    requires { (samples.m ≡ 2) × Coefficients 2 found.now }
    ensures { pair result ≡ constant_sums f32 2 (coefficients_in found.now) (sample f32 samples.entry.re.now samples.entry.im.now) }
{
    let a = found[1];
    let b = found[2];
    let one = Sums { re: 0.0, im: 0.0 } + turn_back(0, samples.at(0));
    let two = one + turn_back(a, samples.at(1));
    let three = two + turn_back(b, samples.at(2));
    three + turn_back((a + b) & 3, samples.at(3))
}
