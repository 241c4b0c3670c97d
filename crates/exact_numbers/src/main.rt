//! Answers a table of calls of `fixed_point`: one call a line of standard input, one answer a line
//! of standard output. `checks/reference/exact_numbers.py` works the same answers out by fractions.
#![tactic(auto)]

mod answer;
mod call;
mod conditions;

use answer::answer_line;
use std::io;

fn main(rt: HostRuntime) -> io::Result<()> {
    for line in rt.lines(rt.alloc()) {
        let answer = answer_line(line?.as_str());
        println!(rt; "{answer}")?;
    }
    Ok(())
}
