// 01's examples and ours, run on the model's definitions, in specs/; there is no code.
#![tactic(auto)]
