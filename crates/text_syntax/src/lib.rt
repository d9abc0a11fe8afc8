// The syntax of a class text (01, "The class text"): tokens and expressions, the form of a line, and the first pass over a
// text, which finds the first line in no allowed form or place.
#![tactic(auto)]

pub mod expression;
pub mod form;
pub mod keyword;
pub mod place;
pub mod token;
