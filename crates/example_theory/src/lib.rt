// The worked examples of docs/REQUIREMENTS.md that are marked P, as one theorem about the definitions. There is no function here.
#![tactic(auto)]
