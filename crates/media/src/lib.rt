#![tactic(auto)]

mod bytes;
pub mod card;
mod lay;
pub mod lent;
mod sectors;
pub mod strike;
pub mod tray;
