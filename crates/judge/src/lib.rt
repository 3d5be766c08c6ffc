// The judgement: whether a command may run, and the first reason of document 01's order that refuses it.
#![tactic(auto)]

mod command;
mod facts;
mod faults;
mod groups;
mod keys;
mod order;

pub use command::Command;
pub use facts::{Facts, facts_of};
pub use order::{earlier_check, later_check, open_check};
