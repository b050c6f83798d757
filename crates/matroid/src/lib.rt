// Rules of four kinds as matroids: reading a file of offers, the questions by which a rule is used, and theorems on
// any matroids.
#![tactic(auto)]

pub mod examples;
pub mod laws;
pub mod offers;
pub mod oracle;
pub mod problem;
pub mod rule;
pub mod theory;

pub use offers::{Offers, States};
pub use oracle::{Oracle, kept_length};
pub use problem::Problem;
pub use rule::Rule;
