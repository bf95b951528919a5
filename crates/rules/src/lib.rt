#![tactic(auto)]

pub mod fault;
pub mod promise;
pub mod state;
pub mod table;
pub mod trailer;
