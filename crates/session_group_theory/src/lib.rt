// Demand 3 for words that travel in rearranged groups: theorems about two whole lists of calls; no function.
#![tactic(auto)]
