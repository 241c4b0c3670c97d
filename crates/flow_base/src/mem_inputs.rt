//! Files in memory that are read by name.
ghost use Rattle.std.specs.Prelude.{◌≡◌, ℕ, List, Bool, true, Some, OnOk, OnErr, is_some};
ghost use Rattle.std.specs.Prelude.{length, refl};
ghost use Rattle.std.specs.Result.{result_ok};
ghost use Rattle.std.specs.Io.{ReadsAtMost};
ghost use Rattle.flow_base.specs.Bytes.{ReadTakes};
ghost use Rattle.flow_base.specs.Causes.{HasCause, OthersKept, NoneFalls, AllStay};
ghost use Rattle.flow_base.specs.MemoryFiles as spec;

use crate::inputs::{Failed, Inputs};
use crate::mem_file::{MemFile, index_of};
use std::marker::Model;

/// Files in memory. The first file of a name serves it; a read fails exactly where its number is
/// listed for that file, or where no file has the name.
#[derive(Drop)]
pub struct MemInputs {
    files: Vec<MemFile>,
    missed: u64,
}

impl Model for MemInputs {
    ghost use Rattle.flow_base.specs.MemoryFiles.{FilesState};

    ghost Value = { FilesState };

    ghost view = { λ inputs. record { files = inputs.files.items; missed = inputs.missed } };
}

impl MemInputs {
    /// Keeps the files that it is given. It takes no memory.
    pub fn new(files: Vec<MemFile>) -> MemInputs
        ensures state { result ≡ record { files = files.items; missed = 0 } }
        ensures left { (name : List ℕ) → ⟦<MemInputs as Inputs>⟧.left result name
            ≡ spec.left_of files.items name }
    {
        MemInputs { files, missed: 0 }
    }

    fn read_first(&mut self, name: &str, buf: &mut [u8]) -> Result<usize, Failed>
        ensures count { result_ok result
            ≡ spec.read_count (length buf.new) (spec.first_of name.now self.old.files) }
        ensures state { self.new ≡ spec.after_read (length buf.new) name.now self.old
            (spec.first_of name.now self.old.files) }
        ensures bound { ReadsAtMost result buf.new }
        ensures bytes { ReadTakes (spec.left_of self.old.files name.now)
            (spec.left_of self.new.files name.now)
            result buf.new }
        ensures kept { OnErr result (buf.new ≡ buf.old) }
    {
        match index_of(&self.files, name) {
            Some(index) => {
                let file = &mut self.files[index];
                file.read(buf)
            }
            None => {
                self.missed = self.missed.saturating_add(1);
                Err(Failed)
            }
        }
    }
}

impl Inputs for MemInputs {
    ghost tells = { true };

    ghost left = { λ inputs. spec.left_of inputs.files };

    ghost faults = { spec.faults_of };

    fn read(&mut self, name: &str, buf: &mut [u8]) -> Result<usize, Failed>
        ensures bound { ReadsAtMost result buf.new }
        ensures bytes { ReadTakes (spec.left_of self.old.files name.now)
            (spec.left_of self.new.files name.now)
            result buf.new }
        ensures others { OthersKept name.now
            (spec.left_of self.old.files) (spec.left_of self.new.files) }
        ensures kept { OnErr result (buf.new ≡ buf.old) }
        ensures cause { HasCause (spec.faults_of self.old name.now)
            (spec.faults_of self.new name.now) result }
        ensures counts { NoneFalls (spec.faults_of self.old) (spec.faults_of self.new) }
        ensures ok { OnOk result (AllStay (spec.faults_of self.old) (spec.faults_of self.new)) }

        // It fails exactly where the number of the read is listed or no file has the name.
        ensures count { result_ok result
            ≡ spec.read_count (length buf.new) (spec.first_of name.now self.old.files) }
        ensures state { self.new ≡ spec.after_read (length buf.new) name.now self.old
            (spec.first_of name.now self.old.files) }
    {
        self.read_first(name, buf)
    }

    ghost fixed = { λ inputs name. refl };
}
