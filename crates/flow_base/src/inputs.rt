//! Where bytes come from.
ghost use Rattle.std.specs.Prelude.{◌≡◌, ℕ, List, Option, OnOk, OnErr, is_some, Bool};
ghost use Rattle.std.specs.Io.{ReadsAtMost};
ghost use Rattle.flow_base.specs.Causes.{HasCause, OthersKept, NoneFalls, AllStay};
ghost use Rattle.flow_base.specs.Bytes.{ReadTakes};

use thiserror::Error;

/// A read or a write failed.
#[derive(Clone, Copy, Debug, PartialEq, Eq, Error)]
#[error("read or write fault")]
pub struct Failed;

/// The greatest number of bytes that one read asks for.
pub(crate) const READ_SIZE: usize = 4_096;

/// Files that are read by name. Each name has a count of its failed reads, which never falls; its
/// greatest value is 2^64 - 1, and a count at this value is taken as one that rose.
pub trait Inputs {
    /// Whether the bytes that are left are known to contracts: those of files in memory are, those
    /// of real files aren't.
    ghost tells: { Bool };

    /// The bytes of that name that are not given yet, where they are known.
    ghost left: { Self → List ℕ → Option (List ℕ) };

    /// How often a read of that name failed.
    ghost faults: { Self → List ℕ → ℕ };

    /// Reads the next bytes of that name to the front of `buf`, and answers how many. 0 for a
    /// buffer that isn't empty is the end. A failed read leaves the buffer as it was.
    fn read(&mut self, name: &str, buf: &mut [u8]) -> Result<usize, Failed>
        ensures bound { ReadsAtMost result buf.new }

        // The bytes that are given are the next ones, and a failure takes none.
        ensures bytes { ReadTakes (left self.old name.now) (left self.new name.now) result buf.new }
        ensures others { OthersKept name.now (left self.old) (left self.new) }
        ensures kept { OnErr result (buf.new ≡ buf.old) }

        // A failure comes only where the count of that name rose, and success leaves every count.
        ensures cause { HasCause (faults self.old name.now) (faults self.new name.now) result }
        ensures counts { NoneFalls (faults self.old) (faults self.new) }
        ensures ok { OnOk result (AllStay (faults self.old) (faults self.new)) };

    /// Whether they are known depends on the type alone.
    ghost fixed: { (inputs : Self) (name : List ℕ) → is_some (left inputs name) ≡ tells };
}
