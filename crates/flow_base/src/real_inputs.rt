//! Files of the system that are read by name.
ghost use Rattle.std.specs.Prelude.{◌≡◌, ◌≢◌, ◌<◌, ℕ, List, [], Option, None, Bool, false};
ghost use Rattle.std.specs.Prelude.{IfOk, OnSome, OnOk, OnErr, IsErr, is_some, vec_len};
ghost use Rattle.std.specs.Prelude.{position, refl};
ghost use Rattle.std.specs.List.{position_or_len};
ghost use Rattle.std.specs.Io.{ReadsAtMost};
ghost use Rattle.std.specs.Io.KnownBytes.{ReadConsumes};
ghost use Rattle.flow_base.specs.Bytes.{ReadTakes};
ghost use Rattle.flow_base.specs.Causes.{HasCause, OthersKept, NoneFalls, AllStay};
ghost use Rattle.flow_base.specs.RealFiles as spec;

use crate::inputs::{Failed, Inputs, READ_SIZE};
use std::alloc::Global;
use std::fs;
use std::io::{self, Read};
use std::rt::Files;

/// Files of the system. A file is opened at the first read of its name and read once: later reads
/// go on in it, and after its end each gives 0. One that can't be opened fails at each read.
///
/// One count serves every name. Memory that runs out in a read counts as a fault. Contracts don't
/// know the content of the files.
#[derive(Drop)]
pub struct RealInputs<R: Files> {
    rt: R,
    alloc: Global,
    files: Vec<RealFile<R::File>>,
    failed: u64,
}

#[derive(Drop)]
struct RealFile<F> {
    name: String,
    source: Source<F>,
}

#[derive(Drop)]
enum Source<F> {
    Open(F),
    Ended,
    Missing,
}

/// How a file stands, by the system's answer to the call that opens it.
fn source_of<F: Drop>(opened: io::Result<F>) -> Source<F>
    ensures open { IfOk opened (λ file. result ≡ Source.Open file) }
    ensures missing { OnErr opened (result ≡ Source.Missing) }
    ensures not_ended { result ≢ Source.Ended }
{
    match opened {
        Ok(file) => Source::Open(file),
        Err(_) => Source::Missing,
    }
}

/// Reads the next bytes of a file to the front of the buffer, `READ_SIZE` at most.
///
/// A read of the system that fails may have written into its buffer, so it gets one of its own.
fn read_piece<F: Read>(file: &mut F, buf: &mut [u8]) -> Result<usize, Failed>
    ensures bound { ReadsAtMost result buf.new }
    ensures kept { OnErr result (buf.new ≡ buf.old) }

    // A file whose bytes are known gives its next ones, and none for a fault.
    ensures bytes { ReadConsumes (F.remaining file.old) (F.remaining file.new) result buf.new }
{
    let mut piece = [0u8; READ_SIZE];
    let most = buf.len().min(READ_SIZE);
    let Ok(count) = file.read(&mut piece[..most]) else {
        return Err(Failed);
    };
    buf[..count].copy_from_slice(&piece[..count]);
    Ok(count)
}

impl<F: Read + Drop> RealFile<F> {
    fn is_named(&self, name: &str) -> bool
        ensures { result ≡ spec.is_named name.now self.now }
    {
        self.name.as_str() == name
    }

    fn read(&mut self, buf: &mut [u8]) -> Result<usize, Failed>
        ensures bound { ReadsAtMost result buf.new }
        ensures kept { OnErr result (buf.new ≡ buf.old) }
        ensures bytes { ReadConsumes (spec.source_left F.remaining self.old.source)
            (spec.source_left F.remaining self.new.source) result buf.new }
        ensures name { self.new.name ≡ self.old.name }

        // One that can't be opened fails at each read.
        ensures missing { self.old.source ≡ Source.Missing → IsErr result }
        ensures still_missing { self.old.source ≡ Source.Missing
            → self.new.source ≡ Source.Missing }
    {
        match &mut self.source {
            Source::Open(file) => {
                let Ok(count) = read_piece(file, buf) else {
                    return Err(Failed);
                };
                if count == 0 && !buf.is_empty() {
                    self.source = Source::Ended;
                }
                Ok(count)
            }
            Source::Ended => Ok(0),
            Source::Missing => Err(Failed),
        }
    }
}

impl<R: Files> RealInputs<R> {
    /// The files that `rt` reaches, none of them opened, with no fault so far.
    pub fn new(rt: R, alloc: Global) -> RealInputs<R>
        ensures faults { (name : List ℕ) → ⟦<RealInputs<R> as Inputs>⟧.faults result name ≡ 0 }
        ensures none_opened { result.files.items ≡ [] }
    {
        RealInputs {
            rt,
            alloc,
            files: Vec::new(alloc),
            failed: 0,
        }
    }

    /// Where the first file stands that was opened by that name.
    fn index_of(&self, name: &str) -> Option<usize>
        ensures { result ≡ position (spec.is_named name.now) self.now.files.items }
    {
        self.files.iter().position(|file| file.is_named(name))
    }

    /// Opens a file of that name, which may fail, and keeps it after the others.
    fn open(&mut self, name: &str) -> Result<(), Failed>
        ensures opened { OnOk result
            (spec.IsOpened name.now self.old.files.items self.new.files.items) }
        ensures unchanged { OnErr result (self.new.files.items ≡ self.old.files.items) }
        ensures count { self.new.failed ≡ self.old.failed }
    {
        let Ok(name) = String::from_str(self.alloc, name) else {
            return Err(Failed);
        };
        let source = source_of(fs::open(&self.rt, name.as_str()));
        match self.files.push(RealFile { name, source }) {
            Ok(()) => Ok(()),
            Err(_) => Err(Failed),
        }
    }

    /// Where the first file of that name stands, which is opened where there is none.
    fn place_of(&mut self, name: &str) -> Result<usize, Failed>
        ensures there { IfOk result (λ index. index < vec_len self.new.files) }
        ensures first { IfOk result (λ index. index
            ≡ position_or_len (spec.is_named name.now) self.new.files.items) }

        // A file is opened only where the name has none, and only then the call may fail.
        ensures found { OnSome (spec.first_of name.now self.old.files.items)
            (self.new.files.items ≡ self.old.files.items) }
        ensures opened { OnOk result (spec.first_of name.now self.old.files.items ≡ None
            → spec.IsOpened name.now self.old.files.items self.new.files.items) }
        ensures not_found { OnErr result (spec.first_of name.now self.old.files.items ≡ None) }
        ensures unchanged { OnErr result (self.new.files.items ≡ self.old.files.items) }
        ensures count { self.new.failed ≡ self.old.failed }
    {
        if let Some(index) = self.index_of(name) {
            return Ok(index);
        }
        let last = self.files.len();
        self.open(name)?;
        Ok(last)
    }

    fn try_read(&mut self, name: &str, buf: &mut [u8]) -> Result<usize, Failed>
        ensures bound { ReadsAtMost result buf.new }
        ensures kept { OnErr result (buf.new ≡ buf.old) }
        ensures file { spec.ReadsName R.File.remaining name.now
            self.old.files.items self.new.files.items result buf.new }
        ensures other_files { spec.OthersStay name.now self.old.files.items self.new.files.items }
        ensures count { self.new.failed ≡ self.old.failed }
    {
        let index = self.place_of(name)?;
        let file = &mut self.files[index];
        file.read(buf)
    }
}

impl<R: Files> Inputs for RealInputs<R> {
    ghost tells = { false };

    ghost left = { λ inputs name. None };

    ghost faults = { λ inputs name. inputs.failed };

    fn read(&mut self, name: &str, buf: &mut [u8]) -> Result<usize, Failed>
        ensures bound { ReadsAtMost result buf.new }
        ensures bytes { ReadTakes None None result buf.new }
        ensures others { OthersKept name.now (λ other. None) (λ other. None) }
        ensures kept { OnErr result (buf.new ≡ buf.old) }
        ensures cause { HasCause self.old.failed self.new.failed result }
        ensures counts { NoneFalls (λ other. self.old.failed) (λ other. self.new.failed) }
        ensures ok { OnOk result (AllStay (λ other. self.old.failed) (λ other. self.new.failed)) }

        // The first file of the name gives its next bytes where its reader makes them known, and
        // fails where it can't be opened; the files of other names stay.
        ensures file { spec.ReadsName R.File.remaining name.now
            self.old.files.items self.new.files.items result buf.new }
        ensures other_files { spec.OthersStay name.now self.old.files.items self.new.files.items }
    {
        match self.try_read(name, buf) {
            Ok(count) => Ok(count),
            Err(Failed) => {
                self.failed = self.failed.saturating_add(1);
                Err(Failed)
            }
        }
    }

    ghost fixed = { λ inputs name. refl };
}
