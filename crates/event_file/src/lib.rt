//! Event files: their lines, and the event and the values of inputs that a line gives. Other files
//! of steps have the same lines, limits and tokens.
//!
//! Read `specs/Lines.antt`, `specs/EventLines.antt` and `specs/EventFile.antt` first.
#![tactic(auto)]

mod cuts;
mod event_lines;
mod fault;
mod input_vals;
mod limits;
mod line_reader;
mod name_table;
mod short_numbers;
mod tokens;
mod values;

pub use event_lines::event_line;
pub use fault::LineFault;
pub use input_vals::InputVals;
pub use limits::{BUFFER_SIZE, FILE_EVENT_LIMIT, FILE_LIMIT, LINE_LIMIT};
pub use line_reader::{LineEnd, LineReader};
pub use tokens::{TokenCut, next_token};
