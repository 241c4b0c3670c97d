//! The lines of code: states and instructions, printed and read exactly.
//!
//! Read `specs/Spelling.antt` first, the one spelling of each line, and then `specs/Fields.antt`,
//! what a line says. The laws say that both agree.
#![tactic(auto)]

mod format;
mod instrs;
mod laws;
mod printer;
mod states;
mod words;

pub use format::{Format, is_in};
pub use instrs::instr_in;
pub use laws::{instructions_have_one_line, states_have_one_line};
pub use printer::{print_instr, print_state};
pub use states::state_at;
