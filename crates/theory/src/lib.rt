// The theorems about the model, in specs/; there is no code.
#![tactic(auto)]
