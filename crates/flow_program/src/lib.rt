//! The program: what its arguments ask for, what it writes, and how it ends.
//!
//! The public call is `chart_main`, and its one main clause is `Answer` of `specs/Answer.antt`.
//! Read `specs/Words.antt` and `specs/Commands.antt` of `command_words` first, then
//! `specs/Call.antt`, `specs/Reading.antt` and `specs/Texts.antt` of `commands`, then a command:
//! `specs/Fmt.antt` or `specs/Selftest.antt` here, or one of `commands`; and last
//! `specs/Ending.antt` and `specs/Answer.antt`.
//!
//! `selftest` runs a generated case by the rules and as code, and tells its counts in one line.
//! `specs/Selftest.antt` says which line a case has, and how the command ends.
#![tactic(auto)]

mod command;
mod ending;
mod fmt;
mod measure;
mod report;
mod selftest;
mod trace_bytes;

pub use command::chart_main;
pub use ending::Ending;
