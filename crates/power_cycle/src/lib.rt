#![tactic(auto)]

pub mod cut;
pub mod look;
