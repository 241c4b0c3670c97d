//! What most other crates use: texts and lists, of whose bytes and items contracts speak, the
//! limits of a chart, the bounds and the faults of a run, the status of the program, and the sources
//! and sinks of bytes.
//!
//! Read `specs/Causes.antt` and `specs/Bytes.antt` first: they say what a source and a sink
//! promise.
#![tactic(auto)]

mod bounds;
pub mod chart_limits;
mod fault;
mod inputs;
mod list;
mod mem_file;
mod mem_inputs;
mod mem_sink;
mod memory;
mod real_inputs;
mod real_sink;
mod sink;
mod status;
mod sure_inputs;
mod sure_sink;
mod text;
mod whole;

pub use bounds::{Bounds, DEPTH_LIMIT, STEP_LIMIT};
pub use fault::Fault;
pub use inputs::{Failed, Inputs};
pub use list::List;
pub use mem_file::MemFile;
pub use mem_inputs::MemInputs;
pub use mem_sink::MemSink;
pub use memory::Memory;
pub use real_inputs::RealInputs;
pub use real_sink::RealSink;
pub use sink::{Sink, write_all};
pub use status::Status;
pub use sure_inputs::SureInputs;
pub use sure_sink::SureSink;
pub use text::Text;
pub use whole::{ReadEnd, read_whole};
