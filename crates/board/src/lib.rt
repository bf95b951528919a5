#![tactic(auto)]

pub mod command;
pub mod laws;
pub mod lines;
mod number;
pub mod reply;
