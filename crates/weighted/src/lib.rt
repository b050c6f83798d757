// A heaviest choice for every size, and theorems on the rounds that find it.
#![tactic(auto)]

mod choice;
pub mod examples;
mod parts;
pub mod theory;
mod turn;

pub use choice::choose;
pub use turn::Answer;
