// Finite sets as bits in lent memory, numbers in bytes, and the refusals.
#![tactic(auto)]

pub mod bits;
pub mod cell;
pub mod numbers;
pub mod refusal;
pub mod theory;
pub mod words;
