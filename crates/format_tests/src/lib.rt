#![tactic(auto)]

// Tests of the formats and of what is found by rank: tables of bytes and what they say, written by hand.
#[cfg(test)]
mod bounds;
mod bytes;
#[cfg(test)]
mod damage;
#[cfg(test)]
mod finds;
#[cfg(test)]
mod lengths;
#[cfg(test)]
mod seats;
#[cfg(test)]
mod segments;
#[cfg(test)]
mod written;
