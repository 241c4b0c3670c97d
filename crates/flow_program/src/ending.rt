//! How a call ends.
ghost use Rattle.std.specs.Prelude.{◌≡◌};
ghost use Rattle.flow_program.specs.Ending as spec;

use crate::selftest::SelftestEnd;
use code_text::CodeTextFault;
use commands::{
    ChartOfNet, ExecEnd, FaultWord, FileEnd, NetCommandEnd, Refusal, RulesEnd, RunEnd, ScheduleEnd,
    TextEnd, TraceEnd,
};
use event_file::LineFault;
use flow_base::Status;
use net_text::NetFault;

/// How a call of the program ends.
#[derive(Drop)]
pub enum Ending {
    /// The whole answer was written.
    Done,
    /// The chart text is refused.
    Chart(Refusal),
    /// The code text is refused.
    Code(CodeTextFault),
    /// The net text is refused.
    Net(NetFault),
    /// The text of that chart of a net is refused.
    NetChart(ChartOfNet, Refusal),
    /// The event file is refused at that line, counted from 1.
    Line(u64, LineFault),
    /// The event file has more events than it may.
    TooManyLines,
    /// The event file has more bytes than it may.
    FileTooLong,
    /// The run has the fault of that word at that index.
    Fault(u64, FaultWord),
    /// At the step of the first number of a schedule the route of the second was full.
    Full(u64, u32),
    /// At the step of the first number of a schedule the route of the second was empty.
    Empty(u64, u32),
    /// The arguments name no command.
    Usage,
    /// A file that the arguments name couldn't be read.
    Read,
    /// Standard output couldn't be written.
    Write,
    /// Memory ran out.
    Memory,
}

impl Ending {
    /// The status of the ending.
    pub fn status(&self) -> Status
        ensures { result ≡ spec.status_of self.now }
    {
        match self {
            Ending::Done => Status::Ok,
            Ending::Chart(_)
            | Ending::Code(_)
            | Ending::Net(_)
            | Ending::NetChart(_, _)
            | Ending::Line(_, _)
            | Ending::TooManyLines
            | Ending::FileTooLong => Status::Refused,
            Ending::Fault(_, _) | Ending::Full(_, _) | Ending::Empty(_, _) => Status::RunFault,
            Ending::Usage => Status::Usage,
            Ending::Read => Status::Read,
            Ending::Write => Status::Write,
            Ending::Memory => Status::Memory,
        }
    }
}

impl From<FileEnd<Refusal>> for Ending {
    ghost use Rattle.std.specs.Prelude.{◌≡◌};
    ghost use Rattle.flow_program.specs.Ending.{of_chart_file};

    ghost from_gives = { λ end ending. ending ≡ of_chart_file end };

    fn from(end: FileEnd<Refusal>) -> Ending {
        match end {
            FileEnd::Refused(refusal) => Ending::Chart(refusal),
            FileEnd::Read => Ending::Read,
            FileEnd::Memory => Ending::Memory,
        }
    }
}

impl From<TextEnd<Refusal>> for Ending {
    ghost use Rattle.std.specs.Prelude.{◌≡◌};
    ghost use Rattle.flow_program.specs.Ending.{of_text};

    ghost from_gives = { λ end ending. ending ≡ of_text end };

    fn from(end: TextEnd<Refusal>) -> Ending {
        match end {
            TextEnd::Done => Ending::Done,
            TextEnd::Unread(end) => Ending::from(end),
            TextEnd::Write => Ending::Write,
        }
    }
}

impl From<TraceEnd> for Ending {
    ghost use Rattle.std.specs.Prelude.{◌≡◌};
    ghost use Rattle.flow_program.specs.Ending.{of_trace};

    ghost from_gives = { λ end ending. ending ≡ of_trace end };

    fn from(end: TraceEnd) -> Ending {
        match end {
            TraceEnd::Done => Ending::Done,
            TraceEnd::Line(number, fault) => Ending::Line(number, fault),
            TraceEnd::TooManyLines => Ending::TooManyLines,
            TraceEnd::FileTooLong => Ending::FileTooLong,
            TraceEnd::Fault(index, word) => Ending::Fault(index, word),
            TraceEnd::Read => Ending::Read,
            TraceEnd::Write => Ending::Write,
            TraceEnd::Memory => Ending::Memory,
        }
    }
}

impl From<RulesEnd> for Ending {
    ghost use Rattle.std.specs.Prelude.{◌≡◌};
    ghost use Rattle.flow_program.specs.Ending.{of_rules};

    ghost from_gives = { λ end ending. ending ≡ of_rules end };

    fn from(end: RulesEnd) -> Ending {
        match end {
            RulesEnd::NoChart(end) => Ending::from(end),
            RulesEnd::Ran(end) => Ending::from(end),
        }
    }
}

impl From<FileEnd<CodeTextFault>> for Ending {
    ghost use Rattle.std.specs.Prelude.{◌≡◌};
    ghost use Rattle.flow_program.specs.Ending.{of_code_file};

    ghost from_gives = { λ end ending. ending ≡ of_code_file end };

    fn from(end: FileEnd<CodeTextFault>) -> Ending {
        match end {
            FileEnd::Refused(fault) => Ending::Code(fault),
            FileEnd::Read => Ending::Read,
            FileEnd::Memory => Ending::Memory,
        }
    }
}

impl From<ExecEnd> for Ending {
    ghost use Rattle.std.specs.Prelude.{◌≡◌};
    ghost use Rattle.flow_program.specs.Ending.{of_exec};

    ghost from_gives = { λ end ending. ending ≡ of_exec end };

    fn from(end: ExecEnd) -> Ending {
        match end {
            ExecEnd::NoCode(end) => Ending::from(end),
            ExecEnd::Ran(end) => Ending::from(end),
        }
    }
}

impl From<RunEnd> for Ending {
    ghost use Rattle.std.specs.Prelude.{◌≡◌};
    ghost use Rattle.flow_program.specs.Ending.{of_run};

    ghost from_gives = { λ end ending. ending ≡ of_run end };

    fn from(end: RunEnd) -> Ending {
        match end {
            RunEnd::NoChart(end) => Ending::from(end),
            RunEnd::Ran(end) => Ending::from(end),
        }
    }
}

impl From<TextEnd<CodeTextFault>> for Ending {
    ghost use Rattle.std.specs.Prelude.{◌≡◌};
    ghost use Rattle.flow_program.specs.Ending.{of_upgrade};

    ghost from_gives = { λ end ending. ending ≡ of_upgrade end };

    fn from(end: TextEnd<CodeTextFault>) -> Ending {
        match end {
            TextEnd::Done => Ending::Done,
            TextEnd::Unread(end) => Ending::from(end),
            TextEnd::Write => Ending::Write,
        }
    }
}

impl From<FileEnd<NetFault>> for Ending {
    ghost use Rattle.std.specs.Prelude.{◌≡◌};
    ghost use Rattle.flow_program.specs.Ending.{of_net_file};

    ghost from_gives = { λ end ending. ending ≡ of_net_file end };

    fn from(end: FileEnd<NetFault>) -> Ending {
        match end {
            FileEnd::Refused(fault) => Ending::Net(fault),
            FileEnd::Read => Ending::Read,
            FileEnd::Memory => Ending::Memory,
        }
    }
}

impl From<ScheduleEnd> for Ending {
    ghost use Rattle.std.specs.Prelude.{◌≡◌};
    ghost use Rattle.flow_program.specs.Ending.{of_schedule};

    ghost from_gives = { λ end ending. ending ≡ of_schedule end };

    fn from(end: ScheduleEnd) -> Ending {
        match end {
            ScheduleEnd::Done => Ending::Done,
            ScheduleEnd::Line(number, fault) => Ending::Line(number, fault),
            ScheduleEnd::TooManyLines => Ending::TooManyLines,
            ScheduleEnd::FileTooLong => Ending::FileTooLong,
            ScheduleEnd::Fault(step, word) => Ending::Fault(step, word),
            ScheduleEnd::Full(step, route) => Ending::Full(step, route),
            ScheduleEnd::Empty(step, route) => Ending::Empty(step, route),
            ScheduleEnd::Read => Ending::Read,
            ScheduleEnd::Write => Ending::Write,
            ScheduleEnd::Memory => Ending::Memory,
        }
    }
}

impl From<NetCommandEnd> for Ending {
    ghost use Rattle.std.specs.Prelude.{◌≡◌};
    ghost use Rattle.flow_program.specs.Ending.{of_net};

    ghost from_gives = { λ end ending. ending ≡ of_net end };

    fn from(end: NetCommandEnd) -> Ending {
        match end {
            NetCommandEnd::NoNet(end) => Ending::from(end),
            NetCommandEnd::NoChart(chart, end) => of_net_chart(chart, end),
            NetCommandEnd::NoRoute(line) => Ending::Net(NetFault::BadRoute(line)),
            NetCommandEnd::Ran(end) => Ending::from(end),
        }
    }
}

/// The ending where nothing comes of the file of a chart of a net.
fn of_net_chart(chart: ChartOfNet, end: FileEnd<Refusal>) -> Ending
    ensures { result ≡ spec.of_net_chart chart end }
{
    match end {
        FileEnd::Refused(refusal) => Ending::NetChart(chart, refusal),
        FileEnd::Read => Ending::Read,
        FileEnd::Memory => Ending::Memory,
    }
}

impl From<SelftestEnd> for Ending {
    ghost use Rattle.std.specs.Prelude.{◌≡◌};
    ghost use Rattle.flow_program.specs.Ending.{of_selftest};

    ghost from_gives = { λ end ending. ending ≡ of_selftest end };

    fn from(end: SelftestEnd) -> Ending {
        match end {
            SelftestEnd::Done => Ending::Done,
            SelftestEnd::Fault(index, word) => Ending::Fault(index, word),
            SelftestEnd::NoChart(refusal) => Ending::Chart(refusal),
            SelftestEnd::Write => Ending::Write,
            SelftestEnd::Memory => Ending::Memory,
        }
    }
}
