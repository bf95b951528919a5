#![tactic(auto)]

// Tests of the board: tables of lines and what they give, written by hand.
#[cfg(test)]
mod commands;
#[cfg(test)]
mod inputs;
#[cfg(test)]
mod replies;
