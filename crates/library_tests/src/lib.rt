//! Tests of the libraries: files, marks and frames, tokens, expressions and data, and the driver
//! over the engine of `sample_engine`. What no contract says, worked by hand.
#![tactic(auto)]

#[cfg(test)]
mod checks;
#[cfg(test)]
mod data;
#[cfg(test)]
mod driver_devices;
#[cfg(test)]
mod driver_setup;
#[cfg(test)]
mod engine;
#[cfg(test)]
mod evaluation;
#[cfg(test)]
mod event_files;
#[cfg(test)]
mod event_limits;
#[cfg(test)]
mod expressions;
#[cfg(test)]
mod files;
#[cfg(test)]
mod frames;
#[cfg(test)]
mod marks;
#[cfg(test)]
mod tokens;
mod worked;

pub use worked::a_trace_line;
