//! Tests of the whole program over files in memory: what no contract says, worked by hand.
#![tactic(auto)]

#[cfg(test)]
mod checking;
#[cfg(test)]
mod code;
#[cfg(test)]
mod devices;
#[cfg(test)]
mod formatting;
#[cfg(test)]
mod nets;
#[cfg(test)]
mod rows;
#[cfg(test)]
mod running;
#[cfg(test)]
mod setup;
