// What Confirm has to do with Read, and what it makes of symbols outside the alphabet. Theorems about the definitions in codec, decode_near
// and code_theory; no function.
#![tactic(auto)]
