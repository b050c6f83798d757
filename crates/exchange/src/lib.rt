// One round's work on lent memory: the exchange graph, labels, the end of a best path, the path itself and the dual set;
// and theorems on augmenting paths between any two matroids.
#![tactic(auto)]

mod dual;
pub mod ends;
pub mod examples;
pub mod graph;
pub mod labelling;
pub mod paths;
mod rows;
pub mod tables;
pub mod theory;

pub use graph::{Graph, Prices};
pub use labelling::Labelling;
pub use paths::Workspace;
pub use tables::ExchangeTables;
