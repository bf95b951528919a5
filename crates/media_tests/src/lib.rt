#![tactic(auto)]

// Tests of the media and the layers: tables of what is done and what is to be seen then, written by hand.
#[cfg(test)]
mod answers;
#[cfg(test)]
mod buffers;
#[cfg(test)]
mod bytes;
#[cfg(test)]
mod charges;
pub mod lender;
#[cfg(test)]
mod marks;
#[cfg(test)]
mod piles;
#[cfg(test)]
mod script;
#[cfg(test)]
mod sizes;
#[cfg(test)]
mod strikes;
#[cfg(test)]
mod ticks;
#[cfg(test)]
mod windows;
