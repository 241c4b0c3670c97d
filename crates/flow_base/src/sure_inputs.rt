//! Files in memory of which no read fails.
ghost use Rattle.std.specs.Prelude.{◌≡◌, ℕ, List, Bool, true, OnOk, OnErr, IsOk, is_some};
ghost use Rattle.std.specs.Prelude.{length, refl};
ghost use Rattle.std.specs.Io.{ReadsAtMost};
ghost use Rattle.flow_base.specs.Bytes.{ReadTakes};
ghost use Rattle.flow_base.specs.Causes.{HasCause, OthersKept, NoneFalls, AllStay};
ghost use Rattle.flow_base.specs.MemoryFiles as spec;

use crate::inputs::{Failed, Inputs};
use crate::mem_file::{MemFile, index_of};
use std::marker::Model;

/// Files in memory of which no read fails, whatever a file lists. The first file of a name serves
/// it, and a name that isn't there is empty.
#[derive(Drop)]
pub struct SureInputs {
    files: Vec<MemFile>,
}

impl Model for SureInputs {
    ghost use Rattle.std.specs.Prelude.{List};
    ghost use Rattle.flow_base.specs.MemoryFiles.{FileState};

    ghost Value = { List FileState };

    ghost view = { λ inputs. inputs.files.items };
}

impl SureInputs {
    /// Keeps the files that it is given. It takes no memory.
    pub fn new(files: Vec<MemFile>) -> SureInputs
        ensures state { result ≡ files.items }
        ensures left { (name : List ℕ) → ⟦<SureInputs as Inputs>⟧.left result name
            ≡ spec.left_of files.items name }
    {
        SureInputs { files }
    }
}

impl Inputs for SureInputs {
    ghost tells = { true };

    ghost left = { spec.left_of };

    ghost faults = { λ inputs name. 0 };

    fn read(&mut self, name: &str, buf: &mut [u8]) -> Result<usize, Failed>
        ensures bound { ReadsAtMost result buf.new }
        ensures bytes { ReadTakes (spec.left_of self.old name.now) (spec.left_of self.new name.now)
            result buf.new }
        ensures others { OthersKept name.now (spec.left_of self.old) (spec.left_of self.new) }
        ensures kept { OnErr result (buf.new ≡ buf.old) }
        ensures cause { HasCause 0 0 result }
        ensures counts { NoneFalls (λ name. 0) (λ name. 0) }
        ensures ok { OnOk result (AllStay (λ name. 0) (λ name. 0)) }

        // It never fails.
        ensures sure { IsOk result }
        ensures count { result
            ≡ Ok (spec.sure_count (length buf.new) (spec.first_of name.now self.old)) }
        ensures state { self.new
            ≡ spec.change_first (spec.after_giving (length buf.new)) name.now self.old }
    {
        match index_of(&self.files, name) {
            Some(index) => {
                let file = &mut self.files[index];
                Ok(file.give(buf))
            }
            None => Ok(0),
        }
    }

    ghost fixed = { λ inputs name. refl };
}
