// Laws of the model's foundations: lists, look-ups, modes, bits, values put back. There is no code; the laws are in specs/.
#![tactic(auto)]
