#![tactic(auto)]

// Tests of the queue: a run that fills it past its end twice, cut at every write, and flashes that were damaged.
#[cfg(test)]
mod cuts;
#[cfg(test)]
mod damage;
#[cfg(test)]
mod edges;
#[cfg(test)]
mod run;
#[cfg(test)]
mod seen;
#[cfg(test)]
mod stage;
