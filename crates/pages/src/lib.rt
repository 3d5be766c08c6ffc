// The pages of SECURITY PROTOCOL IN and OUT (document 01, "Pages"): what an In page replies, what is wrong with an Out page's parameter
// list, and what a GOOD one makes of a unit's attributes and of a key set.
#![tactic(auto)]

mod effects;
mod lists;
mod reader;
mod replies;

pub use effects::{set_attributes, set_keys};
pub use lists::wrong_list;
pub use replies::reply;
