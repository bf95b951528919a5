#![tactic(auto)]

mod bytes;
mod ending;
mod entries;
pub mod page;
pub mod roundtrip;
pub mod segment;
mod trailer;
