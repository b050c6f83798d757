// The check of a certificate, written by anybody, against a file of offers.
#![tactic(auto)]

mod choosing;
mod claim;
mod dual;
mod layout;
mod offers;
mod sized;
mod split;
pub mod theory;
mod writing;

pub use choosing::choose_and_check;
pub use claim::{Claim, work_length};
pub use offers::check;
pub use writing::{sheet_length, write_sheet};
