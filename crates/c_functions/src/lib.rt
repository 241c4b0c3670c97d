//! The C of code, as trees: of expressions and assignments, the plan of a C function for each
//! procedure, and the functions of a file, which run as the code.
//!
//! - `expression_laws`: how an expression of a chart becomes C, and an assignment.
//!   `specs/Translation.antt` says which C is written for an expression, `specs/Storing.antt` which
//!   is written to store a number, `specs/Code.antt` which statements their code is, and
//!   `specs/Assigning.antt` which statements assign to a datum.
//! - `plan_laws`: the plan of a C function for each procedure of code does what the procedure does.
//!   A plan has statements over the fields of states, data, outputs and notes; it leaves open which
//!   C each of them is. Read `specs/Statements.antt` and `specs/Meaning.antt` for plans and what
//!   they do, `specs/States.antt` for the fields of states, `specs/Written.antt` and
//!   `specs/Writer.antt` for which plan is written for instructions, and `specs/Runs.antt` for how
//!   a plan stands to a run of code.
//! - `function_laws`: the C of a plan, which is where states, data and counters stand in the
//!   struct, the statements that are written for those of a plan, and the functions of a file. Read
//!   `specs/Layout.antt` for the states, `specs/Plans.antt` for which C is written,
//!   `specs/Notes.antt` for which procedures are noted, `specs/Files.antt` for the functions and
//!   for when a struct shows the memory of a plan, and `specs/Moments.antt` for how a call of a
//!   function stands to a run of code; `specs/Starts.antt` has the functions that are called from
//!   outside, what they refuse and the runs of a file, `specs/Events.antt` which numbers are events,
//!   and `specs/Inputs.antt` the declarations whose first values are given.
//! - `function_offsets`: the numbers of the functions after those of procedures.
//! - `types`: the type of words and that of the field of a datum, which the crates above write and
//!   print. It is the one code that runs.
//!
//! Lemmas in `proofs` have the name of the specification that they serve in front of their own, and
//! `proofs/Lib.antt` lists them by these modules.
#![tactic(auto)]

mod expression_laws;
mod function_laws;
pub mod function_offsets;
mod plan_laws;
mod types;

pub use expression_laws::{
    assignments_change_the_struct, assignments_store_what_is_kept, expressions_have_their_values,
    statements_do_what_code_does,
};
pub use function_laws::{
    changes_of_states_change_the_struct, files_refuse_what_is_no_event, files_run_as_code,
    functions_end_as_code, states_have_places, tests_of_states_give_which_are_active,
};
pub use plan_laws::{
    calls_from_outside_end_as_code, calls_of_well_formed_code_end_as_it,
    changes_of_fields_are_those_of_marks, code_is_never_stuck, functions_do_what_procedures_do,
    memory_tells_its_world, one_store_shows_consistent_marks, plans_are_written_for_their_code,
    tests_of_fields_are_those_of_marks, zeros_show_no_marks,
};
pub use types::{WORD, field_type};
