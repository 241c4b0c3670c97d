//! Files read whole.
ghost use Rattle.std.specs.Prelude.{◌≡◌, ◌≢◌, ◌<◌, ◌≤◌, ◌+◌, ℕ, List, length};
ghost use Rattle.std.specs.Prelude.{IfOk, IfErr, OnOk, IsErrOf, IfSome};
ghost use Rattle.std.specs.Io.KnownBytes.{prepend_known, IsAtEnd};
ghost use Rattle.flow_base.specs.Bytes.{TakesAtMost};
ghost use Rattle.flow_base.specs.Causes.{Rose, OthersKept, NoneFalls, AllStay};

use crate::inputs::{Failed, Inputs, READ_SIZE};
use std::alloc::{AllocError, Global};
use thiserror::Error;

/// Why a file wasn't read whole.
#[derive(Clone, Copy, Debug, PartialEq, Eq, Error)]
pub enum ReadEnd {
    /// A read failed.
    #[error("read fault")]
    Failed,
    /// The file has more bytes than the limit.
    #[error("file too long")]
    TooLong,
    /// Memory ran out.
    #[error("out of memory")]
    Memory,
}

impl From<Failed> for ReadEnd {
    ghost use Rattle.std.specs.Prelude.{◌≡◌};
    ghost use Rattle.flow_base.specs.declared.whole.ReadEnd.TheVariants as ends;

    ghost from_gives = { λ _ end. end ≡ ends.Failed };

    fn from(_failed: Failed) -> ReadEnd {
        ReadEnd::Failed
    }
}

impl From<AllocError> for ReadEnd {
    ghost use Rattle.std.specs.Prelude.{◌≡◌};
    ghost use Rattle.flow_base.specs.declared.whole.ReadEnd.TheVariants as ends;

    ghost from_gives = { λ _ end. end ≡ ends.Memory };

    fn from(_refused: AllocError) -> ReadEnd {
        ReadEnd::Memory
    }
}

/// Reads the rest of a file whole, where it has at most `limit` bytes. A longer file is refused
/// once one byte past the limit was read. What was read before an error is lost.
pub fn read_whole<I: Inputs>(
    alloc: Global,
    inputs: &mut I,
    name: &str,
    limit: usize,
) -> Result<Vec<u8>, ReadEnd>
    ensures whole { IfOk result (λ v.
        I.left inputs.old name.now ≡ prepend_known v.items (I.left inputs.new name.now)) }
    ensures end { OnOk result (IsAtEnd (I.left inputs.new name.now)) }
    ensures fits { IfOk result (λ v. length v.items ≤ limit) }
    ensures too_long { IsErrOf result ReadEnd.TooLong
        → IfSome (I.left inputs.old name.now) (λ t. limit < length t) }

    // Whatever the answer, no more than one byte past the limit was read, and of no other name.
    ensures bounded { TakesAtMost (limit + 1)
        (I.left inputs.old name.now) (I.left inputs.new name.now) }
    ensures others { OthersKept name.now (I.left inputs.old) (I.left inputs.new) }

    // A failure comes only where the count of that name rose; any other answer leaves every count.
    ensures failed { IsErrOf result ReadEnd.Failed
        → Rose (I.faults inputs.old name.now) (I.faults inputs.new name.now) }
    ensures counts { NoneFalls (I.faults inputs.old) (I.faults inputs.new) }
    ensures ok { OnOk result (AllStay (I.faults inputs.old) (I.faults inputs.new)) }
    ensures quiet { IfErr result (λ end. end ≢ ReadEnd.Failed
        → AllStay (I.faults inputs.old) (I.faults inputs.new)) }
{
    let mut text = Vec::new(alloc);
    let mut buffer = [0u8; READ_SIZE];
    'pieces: while text.len() <= limit {
        let most = (limit - text.len()).min(READ_SIZE - 1) + 1;
        let count = inputs.read(name, &mut buffer[..most])?;
        if count == 0 {
            return Ok(text);
        }
        text.extend_from_slice(&buffer[..count])?;
    }
    Err(ReadEnd::TooLong)
}
