// The theorems about texts: what an accepted text holds, and the names and lines that its classes inherit, in specs/; there is no code.
#![tactic(auto)]
