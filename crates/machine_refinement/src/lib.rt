// The refinement of the model by the words of the state: see specs/.
#![tactic(auto)]
