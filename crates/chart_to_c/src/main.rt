//! `chart_to_c`: writes the C of Stateflow charts that are written as text.
#![tactic(auto)]

use c_program::c_main;
use flow_base::{RealInputs, RealSink, Status, write_all};
use std::process::ExitCode;
use std::{env, io};

fn main(rt: HostRuntime) -> ExitCode {
    match words(&rt) {
        Ok(words) => ExitCode::from(run(&rt, &words).code()),
        Err(error) if error.kind() == io::ErrorKind::OutOfMemory => {
            let _ = write_all(&mut RealSink::new(rt.stderr()), b"out of memory\n");
            ExitCode::from(Status::Memory.code())
        }
        // Words that are no text name no command.
        Err(_) => ExitCode::from(run(&rt, &[]).code()),
    }
}

/// The words after the program's name.
fn words(rt: &HostRuntime) -> io::Result<Vec<String>> {
    let mut words = Vec::new(rt.alloc());
    for word in env::args(rt)?.skip(1) {
        words.push(word)?;
    }
    Ok(words)
}

/// Runs the program over the files and the streams of the system.
fn run(rt: &HostRuntime, words: &[String]) -> Status {
    let mut inputs = RealInputs::new(*rt, rt.alloc());
    let mut out = RealSink::new(rt.stdout());
    let mut err = RealSink::new(rt.stderr());
    c_main(rt.alloc(), words, &mut inputs, &mut out, &mut err)
}
