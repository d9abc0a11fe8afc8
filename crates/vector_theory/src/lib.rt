// The theorems about the vectors of a library: the closure over self-calls, and the modes in it, in specs/; there is no code.
#![tactic(auto)]
