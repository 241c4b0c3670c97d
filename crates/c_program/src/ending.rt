//! How a call ends.
ghost use Rattle.std.specs.Prelude.{◌≡◌};
ghost use Rattle.c_program.specs.Ending as spec;

use commands::{FileEnd, Refusal, TextEnd};
use flow_base::Status;

/// How a call of the program ends.
#[derive(Clone, Copy)]
pub enum Ending {
    /// The whole answer was written.
    Done,
    /// The chart text is refused.
    Chart(Refusal),
    /// The arguments name no command.
    Usage,
    /// The file that the arguments name couldn't be read.
    Read,
    /// Standard output couldn't be written.
    Write,
    /// Memory ran out.
    Memory,
}

impl Ending {
    /// The status of the ending.
    pub fn status(&self) -> Status
        ensures { result ≡ spec.status_of self.now }
    {
        match self {
            Ending::Done => Status::Ok,
            Ending::Chart(_) => Status::Refused,
            Ending::Usage => Status::Usage,
            Ending::Read => Status::Read,
            Ending::Write => Status::Write,
            Ending::Memory => Status::Memory,
        }
    }
}

impl From<FileEnd<Refusal>> for Ending {
    ghost use Rattle.std.specs.Prelude.{◌≡◌};
    ghost use Rattle.c_program.specs.Ending.{of_chart_file};

    ghost from_gives = { λ end ending. ending ≡ of_chart_file end };

    fn from(end: FileEnd<Refusal>) -> Ending {
        match end {
            FileEnd::Refused(refusal) => Ending::Chart(refusal),
            FileEnd::Read => Ending::Read,
            FileEnd::Memory => Ending::Memory,
        }
    }
}

impl From<TextEnd<Refusal>> for Ending {
    ghost use Rattle.std.specs.Prelude.{◌≡◌};
    ghost use Rattle.c_program.specs.Ending.{of_text};

    ghost from_gives = { λ end ending. ending ≡ of_text end };

    fn from(end: TextEnd<Refusal>) -> Ending {
        match end {
            TextEnd::Done => Ending::Done,
            TextEnd::Unread(end) => Ending::from(end),
            TextEnd::Write => Ending::Write,
        }
    }
}
