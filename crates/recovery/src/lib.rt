#![tactic(auto)]

pub mod directory;
pub mod page;
pub mod places;
pub mod recovered;
mod scan;
mod segments;
mod shape;
mod tail;
