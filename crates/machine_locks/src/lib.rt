// The lock manager: whether a send starts, waits or is refused, and the waking of the line. What is in the way of a send is read by crate
// `machine_conflicts`, and what it writes into its row is written by `machine_take`; a transaction's locks are released by
// `machine_undo::release`. docs/LOCKS.md explains it; the rules are in crates/machine_words/specs/Request.antt and Line.antt.
#![tactic(auto)]

mod grant;
pub mod request;
pub mod wake;
