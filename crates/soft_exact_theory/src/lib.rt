// Whole samples: the f32 definitions are exact on them, and clean words are read. Theorems about the definitions in soft_theory; no
// function.
#![tactic(auto)]
