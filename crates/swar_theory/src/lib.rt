// The digits of a number to the base 2^b: definitions in specs/, laws in proofs/. This crate has no function.
#![tactic(auto)]
