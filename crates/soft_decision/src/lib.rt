// The decision for one symbol by its two sums.
#![tactic(auto)]

ghost use Rattle.std.specs.Prelude.{◌≡◌, cond};
ghost use Rattle.soft_theory.specs.Numbers.{f32};
ghost use Rattle.soft_theory.specs.Decision.{magnitude, is_decisive, decide, is_sure, symbol};
ghost use Rattle.soft_vote_sums.specs.Pair.{pair};
ghost use Rattle.soft_decision.specs.Voted.{voted};
ghost use Rattle.soft_decision.specs.Internal.{sure_symbol};
ghost use Rattle.std.specs.Float.Ieee.{lt};

use code_questions::Refusal;
use soft_vote_sums::Sums;

// What one soft vote answers: an enum with three cases, a form that docs/REQUIREMENTS.md names.
#[derive(Clone, Copy, Debug, PartialEq)]
pub enum SoftVote {
    Sure(u8, Sums),
    Unsure(Sums),
    Refused(Refusal),
}

// The one of two values that the test picks. Both are worked out, so that the compiler leaves no branch that the test could mislead.
fn pick<T: Copy>(test: bool, a: T, b: T) -> T
    ensures { result ≡ cond test a b }
{
    if test { a } else { b }
}

// How far x is from 0; -0 stays, and no comparison tells it from +0. f32's own `abs` tests for it once more.
fn magnitude(x: f32) -> f32
    ensures { result ≡ magnitude f32 x }
{
    pick(x < 0.0, -x, x)
}

// Whether the magnitudes a and b are sure. The smaller one is worked out only after the first test, so that the compiler takes both from
// the processor's own minimum and maximum. f32's own `max` and `min` pass a NaN over, and would be sure of it beside an infinite sum.
fn is_decisive(a: f32, b: f32) -> bool
    ensures { result ≡ is_decisive f32 (cond (lt a b) b a) (cond (lt a b) a b) }
{
    let larger = pick(a < b, b, a);
    larger > 0.0 && 3.0 * pick(a < b, a, b) <= 2.0 * larger
}

// The decision by both sums. Which sum is larger, and which sign it has, are as good as random from word to word, so both symbols are
// worked out and one is picked.
pub fn decision(s: Sums) -> SoftVote
    ensures { voted result ≡ decide f32 (pair s) }
{
    let a = magnitude(s.re);
    let b = magnitude(s.im);
    if !is_decisive(a, b) {
        return SoftVote::Unsure(s);
    }
    let real = pick(s.re > 0.0, 0, 2);
    let imaginary = pick(s.im > 0.0, 1, 3);
    SoftVote::Sure(pick(a < b, imaginary, real), s)
}

// Whether a decision is sure.
pub fn is_sure(vote: SoftVote) -> bool
    ensures { result ≡ is_sure (voted vote) }
{
    match vote {
        SoftVote::Sure(_, _) => true,
        SoftVote::Unsure(_) => false,
        SoftVote::Refused(_) => false,
    }
}

// The symbol of a sure decision.
pub fn symbol_of(vote: SoftVote) -> u8
    ensures { result ≡ symbol (voted vote) }
{
    match vote {
        SoftVote::Sure(symbol, _) => symbol,
        SoftVote::Unsure(_) => 0,
        SoftVote::Refused(_) => 0,
    }
}

impl SoftVote {
    // The symbol where the decision is sure.
    pub fn symbol(self) -> Option<u8>
        ensures { result ≡ sure_symbol (voted self) }
    {
        if is_sure(self) {
            Some(symbol_of(self))
        } else {
            None
        }
    }
}
