// What is in the way of a send, read from the words: the locks of a row that clash with it, the line of those who wait, whether a slot holds
// its send's locks already, and circles of waits. Nothing is altered here: crate `machine_locks` does that. docs/LOCKS.md explains it; the
// rules are in crates/machine_words/specs/Request.antt and Line.antt.
#![tactic(auto)]

pub mod circle;
pub mod clash;
pub mod line;
pub mod own;
