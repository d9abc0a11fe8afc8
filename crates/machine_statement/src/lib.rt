// What a statement of a running message does (01, "Statements"), read from its line. It reads only.
#![tactic(auto)]

pub mod line;
