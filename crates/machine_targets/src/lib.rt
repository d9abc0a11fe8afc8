// The target of a message: whether it exists, and the objects that a message to it visits (01, "The machine").
#![tactic(auto)]

pub mod visit;
