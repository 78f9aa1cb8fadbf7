// Soft samples, and the two sums of the votes for one coefficient, q = 4.
#![tactic(auto)]

ghost use Rattle.std.specs.Prelude.{◌≡◌, ◌^◌, ◌/◌, ◌<◌, ◌≤◌, length, get_or};
ghost use Rattle.code_theory.specs.Internal.{nth_clear};
ghost use Rattle.soft_theory.specs.Numbers.{f32};
ghost use Rattle.soft_theory.specs.Complex.{sample, term, plus};
ghost use Rattle.soft_theory.specs.Soft.{vote_sums};
ghost use Rattle.soft_vote_sums.specs.Pair.{pair};
ghost use Rattle.soft_vote_sums.specs.Internal.{vote_at};

use std::ops::Add;

// The real and the imaginary sum of a vote, kept together; likewise the two parts of a sample or of a term.
#[derive(Clone, Copy, Debug, PartialEq)]
pub struct Sums {
    pub re: f32,
    pub im: f32,
}

impl Sums {
    // The term of one vote, for the sample p and its partner, self.
    fn vote_term(self, p: Sums) -> Sums
        ensures { pair result ≡ term f32 (pair self) (pair p) }
    {
        Sums {
            re: self.re * p.re + self.im * p.im,
            im: self.im * p.re - self.re * p.im,
        }
    }
}

// The sums plus one term.
impl Add for Sums {
    type Output = Sums;

    ghost add_gives = { λ s z r. pair r ≡ plus f32 (pair s) (pair z) };

    fn add(self, z: Sums) -> Sums {
        Sums {
            re: self.re + z.re,
            im: self.im + z.im,
        }
    }
}

// 2^m samples, m from 2 to 8: the real and the imaginary parts.
#[derive(Clone, Copy)]
pub struct Samples<'a> {
    pub m: u32,
    pub re: &'a [f32],
    pub im: &'a [f32],
    pub ghost low: { 2 ≤ m },
    pub ghost high: { m ≤ 8 },
    pub ghost reals: { length re.now ≡ 2 ^ m },
    pub ghost imaginaries: { length im.now ≡ 2 ^ m },
}

// The part at index i.
pub fn part(x: &[f32], i: usize) -> f32
    requires { i < length x.now }
    ensures { result ≡ get_or x.now i (f32.number 0) }
{
    x[i]
}

impl<'a> Samples<'a> {
    // The sample at index i.
    pub fn at(self, i: usize) -> Sums
        requires { i < length self.re.now }
        ensures { pair result ≡ sample f32 self.entry.re.now self.entry.im.now i }
    {
        Sums {
            re: part(self.re, i),
            im: part(self.im, i),
        }
    }

    // The vote at place j of coefficient k, which is at index i.
    pub fn vote_at(self, k: u32, j: usize, i: usize) -> Sums
        requires { (k < self.m) × (j < length self.re.now / 2) × (i ≡ nth_clear k j) }
        ensures { pair result ≡ vote_at self.entry.re.now self.entry.im.now k j }
    {
        let y = self.at(i + code_arith::pow2(k));
        y.vote_term(self.at(i))
    }

    // The vote of the sample at index i, whose partner is at index i of the slices yr and yi, which start 2^k indices further on: one index
    // serves all four.
    fn vote_of(self, i: usize, yr: &[f32], yi: &[f32]) -> Sums
        requires { (i < length self.re.now) × (i < length yr.now) × (i < length yi.now) }
        ensures { pair result ≡ term f32 (sample f32 yr.now yi.now i) (sample f32 self.entry.re.now self.entry.im.now i) }
    {
        let y = Sums {
            re: part(yr, i),
            im: part(yi, i),
        };
        y.vote_term(self.at(i))
    }

    // Both sums of the votes for coefficient k, over the indices with bit k clear, upward: two places at a time. The loop counts, since
    // the indices of the votes come from the places by shifts and masks, a form that docs/REQUIREMENTS.md names.
    pub fn vote_sums(self, k: u32) -> Sums
        requires { k < self.m }
        ensures { pair result ≡ vote_sums f32 self.entry.m k (sample f32 self.entry.re.now self.entry.im.now) }
    {
        let mut s = Sums { re: 0.0, im: 0.0 };
        let step = code_arith::pow2(k);
        let yr = &self.re[step..];
        let yi = &self.im[step..];
        for b in 0..self.re.len() / 4 {
            let j = 2 * b;
            s = s + self.vote_of(code_arith::nth_clear(k, j), yr, yi);
            s = s + self.vote_of(code_arith::nth_clear(k, j + 1), yr, yi);
        }
        s
    }

    // Both sums of the two votes for coefficient k in four samples, with no loop. That of soft_constant_sums sums turned samples, no votes.
    pub fn four_sums(self, k: u32) -> Sums
        requires { (self.m ≡ 2) × (k < 2) }
        ensures { pair result ≡ vote_sums f32 2 k (sample f32 self.entry.re.now self.entry.im.now) }
    {
        let i = code_arith::nth_clear(k, 0);
        let s = Sums { re: 0.0, im: 0.0 } + self.vote_at(k, 0, i);
        let j = code_arith::nth_clear(k, 1);
        s + self.vote_at(k, 1, j)
    }
}
