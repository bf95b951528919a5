#![tactic(auto)]

pub mod answer;
pub mod play;
