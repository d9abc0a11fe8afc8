// What a user of the entries may believe: demand 3, what the tablets saw, the line, the steps counted, in specs/; there is no code.
#![tactic(auto)]
