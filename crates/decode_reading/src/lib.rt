// What every reader of words answers.
#![tactic(auto)]

// How a word was read: the places where it differs from the message's word, and the least lead of the message's symbols.
#[derive(Clone, Copy, Debug, PartialEq, Eq)]
pub struct Reading {
    pub wrong: u32,
    pub margin: u32,
}
