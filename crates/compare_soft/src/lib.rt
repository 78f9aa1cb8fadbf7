// The soft calls for a program that compares them with another implementation; nothing else uses this crate.
#![tactic(auto)]

ghost use Rattle.std.specs.Prelude.{◌≡◌};
ghost use Rattle.soft_theory.specs.Numbers.{f32};
ghost use Rattle.soft_theory.specs.Soft.{soft_vote, read_answer, read_message};
ghost use Rattle.soft.specs.Pair.{pair};
ghost use Rattle.code_theory.specs.Internal.{answer_number};
ghost use Rattle.compare_soft.specs.Internal.{vote_number, with_sums, sums_after};

use soft::{SoftVote, Sums};

// Puts the sums into a slice of two, one by one: with copy_from_slice a vote takes eight to ten instructions more.
fn store(s: Sums, sums: &mut [f32])
    ensures { sums.new ≡ with_sums (pair s) sums.old }
{
    if sums.len() == 2 {
        sums[0] = s.re;
        sums[1] = s.im;
    }
}

// One soft vote: the refusal number; or 100 + symbol for sure and 104 for unsure, with both sums in the slice of two.
#[unsafe(no_mangle)]
pub extern "C" fn compare_soft_vote(m: u32, k: u32, re: &[f32], im: &[f32], sums: &mut [f32]) -> u32
    ensures answer { result ≡ vote_number (soft_vote f32 m k re.now im.now) }
    ensures buffer { sums.new ≡ sums_after (soft_vote f32 m k re.now im.now) sums.old }
{
    match soft::soft_vote(m, k, re, im) {
        SoftVote::Sure(symbol, s) => {
            store(s, sums);
            100 + u32::from(symbol)
        }
        SoftVote::Unsure(s) => {
            store(s, sums);
            104
        }
        SoftVote::Refused(refusal) => u32::from(refusal),
    }
}

// The soft read: the refusal number, or 100.
#[unsafe(no_mangle)]
pub extern "C" fn compare_soft_read(m: u32, message: &mut [u8], re: &[f32], im: &[f32]) -> u32
    ensures answer { result ≡ answer_number (read_answer f32 m message.old re.now im.now) }
    ensures buffer { message.new ≡ read_message f32 m message.old re.now im.now }
{
    match soft::soft_read(m, message, re, im) {
        Ok(()) => 100,
        Err(refusal) => u32::from(refusal),
    }
}
