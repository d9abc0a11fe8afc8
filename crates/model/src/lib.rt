// The model: definitions only, in specs/.
#![tactic(auto)]
