#![tactic(auto)]

mod copies;
pub mod read_buffer;
pub mod window;
