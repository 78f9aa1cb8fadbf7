// Groups of words, and how their symbols are rearranged and put back, for all sizes. Definitions and laws; no function.
#![tactic(auto)]
