//! How the program ends.
ghost use Rattle.std.specs.Prelude.{◌≡◌};
ghost use Rattle.flow_base.specs.Status.{status_code};

/// How the program ends.
#[derive(Clone, Copy, Debug, PartialEq, Eq)]
pub enum Status {
    /// The whole answer was written.
    Ok,
    /// A file was refused.
    Refused,
    /// The words name no command of the program.
    Usage,
    /// The run ended at a fault.
    RunFault,
    /// A file couldn't be read.
    Read,
    /// Standard output couldn't be written.
    Write,
    /// Memory ran out.
    Memory,
}

impl Status {
    /// The status with which the process ends: 0 to 6, in the order of the variants.
    pub fn code(self) -> u8
        ensures { result ≡ status_code self }
    {
        match self {
            Status::Ok => 0,
            Status::Refused => 1,
            Status::Usage => 2,
            Status::RunFault => 3,
            Status::Read => 4,
            Status::Write => 5,
            Status::Memory => 6,
        }
    }
}
