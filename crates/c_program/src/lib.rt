//! The program `chart_to_c`: what its arguments ask for, what it writes, and how it ends.
//!
//! The public call is `c_main`, and its one main clause is `CAnswer` of `specs/Answer.antt`. Read
//! the words first, then the commands, and last the answer.
//!
//! The words are read with `clap`. The clause of `command_from` says for every list of words which
//! command it asks for, or that it is refused: read `specs/Commands.antt` and `specs/Words.antt`,
//! which go on from `specs/Reading.antt` and `specs/Options.antt` of `command_words` and don't
//! speak of `clap`. `specs/Parser.antt` and `specs/Asked.antt` are the parser as `clap` sees it and
//! what its answers stand for.
//!
//! The commands are `header` and `source`, the files of the C of a chart, and `--version`. Read
//! `specs/Bounds.antt`, which bounds the C of a chart has, and then `specs/Texts.antt`, how the
//! commands end.
//! `bounds_of_need_are_not_overrun` says what bounds are worth that the chart itself gives.
//!
//! `specs/Ending.antt` has the status and the line of each ending, and `specs/Answer.antt` the
//! answer.
#![tactic(auto)]

mod bounds;
mod bounds_laws;
mod command;
mod ending;
mod files;
mod parser;
mod report;
mod version;
mod words;

pub use bounds::bounds_for;
pub use bounds_laws::bounds_of_need_are_not_overrun;
pub use command::c_main;
pub use ending::Ending;
