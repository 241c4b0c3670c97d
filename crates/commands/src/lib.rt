//! The commands over files: `check`, `bounds`, `rules`, `compile`, `exec`, `run`, `upgrade`,
//! `shrink` and `net`, and what they share: a file read whole, a text that is written, and the trace
//! of any engine. And what the answers of both programs share: how a call ends, and pieces of the
//! line on standard error.
//!
//! Read `specs/Call.antt` first, then `specs/Reading.antt`, `specs/Writing.antt` and
//! `specs/Texts.antt`, which says how a command ends that writes one text made of one file;
//! `specs/Trace.antt`, the trace of an engine's run over an event file; and then a command:
//! `specs/Check.antt`, `specs/Bounds.antt`, `specs/Rules.antt`, `specs/Compile.antt`,
//! `specs/Exec.antt`, `specs/Run.antt`, `specs/Upgrade.antt` or `specs/Shrink.antt`.
//! `specs/Refusals.antt` and `specs/Accepted.antt` say which chart texts are refused,
//! `specs/CodeText.antt` which code texts are read. For `net` read `specs/NetCharts.antt`,
//! `specs/NetRoutes.antt`, `specs/NetRules.antt`, `specs/Schedule.antt` and
//! `specs/NetCommand.antt`, in this order.
//!
//! `specs/Endings.antt` says how a call ends at once, and how it ends as its command does.
//! `specs/ErrorLines.antt` has the line on standard error of a chart text that is refused, and says
//! what stands there where a write fails.
#![tactic(auto)]

mod accepted_file;
mod bounds;
mod check;
mod code_file;
mod compile;
mod compile_laws;
mod error_line;
mod exec;
mod fault_word;
mod file;
mod net;
mod net_charts;
mod net_file;
mod net_laws;
mod net_machines;
mod net_routes;
mod refusal;
mod rules;
mod run;
mod run_laws;
mod schedule;
mod shrink;
mod text;
mod traced;
mod upgrade;

pub use accepted_file::read_accepted;
pub use bounds::bound_chart;
pub use check::check_chart;
pub use compile::{compile_chart, compiled_text};
pub use compile_laws::what_compile_writes_is_read;
pub use error_line::{write_kind, write_number, write_refusal};
pub use exec::{ExecEnd, exec_code, run_code};
pub use fault_word::FaultWord;
pub use file::{FileEnd, read_text};
pub use net::{ChartOfNet, NetCommandEnd, run_net};
pub use net_laws::nets_by_rules_keep_the_law_of_nets;
pub use refusal::{Refusal, TOO_LONG, end_of_fault};
pub use rules::{RulesEnd, run_chart};
pub use run::{RunEnd, run_compiled, run_printed};
pub use run_laws::{
    code_of_a_chart_overruns_no_bounds_of_its_need, compiled_code_is_traced_as_its_chart,
    shrunk_code_runs_as_its_chart,
};
pub use schedule::ScheduleEnd;
pub use shrink::shrink_code;
pub use text::{TextEnd, write_made};
pub use traced::{TraceEnd, trace};
pub use upgrade::upgrade_code;
