#![tactic(auto)]

mod admit;
mod calls;
mod checkpoint;
mod fetch;
mod frame;
mod frames;
mod held;
pub mod hold;
mod leave;
mod mount;
mod recency;
mod slot;
pub mod store;
mod take;
