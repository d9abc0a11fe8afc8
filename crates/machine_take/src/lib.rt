// What a send writes: its locks, its message at its start, and its words while it waits, in its slot's row. Whether it may is said by crates
// `machine_conflicts` and `machine_locks`. docs/LOCKS.md explains it; the rules are in crates/machine_words/specs/Request.antt and Line.antt.
#![tactic(auto)]

pub mod start;
pub mod take;
pub mod wait;
