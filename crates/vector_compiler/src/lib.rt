// The vector compiler (01, "Vectors and commuting"): the transitive vector of every method of every class as two masks, and
// a mask of the methods that it commutes with, written into the tables.
#![tactic(auto)]

mod body;
mod closure;
pub mod fill;
mod memo;
