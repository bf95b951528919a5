#![tactic(auto)]

mod dequeue;
mod directory;
mod enqueue;
mod pages;
pub mod queue;
mod recover;
mod segment;
