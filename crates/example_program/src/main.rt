// The library from Rattle: a message is written as a word, one symbol of the word is damaged, and the word is read. Prints in how many
// places it was wrong, or the number of the refusal.
#![tactic(auto)]

use code_questions::Refusal;
use std::io;

// In how many places the damaged word is wrong.
fn wrong_places() -> Result<u32, Refusal> {
    let message = [1u8, 1, 3, 0, 2];
    let mut word = [0u8; 16];
    codec::encode(4, 4, &message, &mut word)?;
    word[2] = 1;
    let mut read = [0u8; 5];
    Ok(codec::decode(4, 4, &mut read, &word)?.wrong)
}

fn main(rt: HostRuntime) -> io::Result<()> {
    let answer = wrong_places().unwrap_or_else(u32::from);
    print!(rt; "{answer}")
}
