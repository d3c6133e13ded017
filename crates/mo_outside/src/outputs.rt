ghost use Rattle.std.specs.Prelude.{◌≡◌, ◌≤◌, ◌||◌, OnOk, OnErr, is_err, is_none, [], IfOk, IsOk, Some, None, slice_get, option_map, option_and_then, length};
ghost use Rattle.std.specs.Option.{option_copied};
ghost use Rattle.mo_outside.specs.Calls.{is_failing, counted};
ghost use Rattle.mo_outside.specs.Room.{begun_within, written_within};
ghost use Rattle.mo_outside.specs.Written.{at_last, finished};

use crate::calls::{CallCount, CallList};
use crate::file_buffer::FileBuffer;
use crate::traits::{Failed, Out};
use mo_types::OutOfMemory;
use std::alloc::Global;
use std::marker::Model;

/// An output in memory that never fails. It stops telling its files at the first path or piece that
/// doesn't fit the rest of the room, and at a third path.
#[derive(Drop)]
pub struct SureOut {
    files: FileBuffer,
    is_telling: bool,
}

impl Model for SureOut {
    ghost use Rattle.std.specs.Prelude.{Some, None, if◌then◌else◌};
    ghost use Rattle.mo_outside.specs.Memory.{SureOutput};

    ghost Value = { SureOutput };

    ghost view = { λ out. record { files = if out.is_telling then Some out.files.files else None; room = out.files.room } };
}

impl SureOut {
    /// An output with room for so many bytes of paths and contents, for which it takes the memory now.
    pub fn new(alloc: Global, room: u64) -> Result<SureOut, OutOfMemory>
        ensures { IfOk result (λ out. out ≡ record { files = Some []; room = room }) }
    {
        let files = FileBuffer::new(alloc, room)?;
        Ok(SureOut {
            files,
            is_telling: true,
        })
    }

    /// The path of a file begun, counted from 0, where it tells its files.
    pub fn path(&self, file: usize) -> Option<&[u8]>
        ensures { option_copied result ≡ option_and_then (λ files. option_map (λ f. f.path) (slice_get files file)) self.now.files }
    {
        if self.is_telling {
            self.files.path(file)
        } else {
            None
        }
    }

    /// The bytes that were written of a file begun, counted from 0, where it tells its files.
    pub fn bytes(&self, file: usize) -> Option<&[u8]>
        ensures { option_copied result ≡ option_and_then (λ files. option_map (λ f. f.bytes) (slice_get files file)) self.now.files }
    {
        if self.is_telling {
            self.files.bytes(file)
        } else {
            None
        }
    }

    /// Whether a file begun, counted from 0, is done, where it tells its files.
    pub fn is_done(&self, file: usize) -> Option<bool>
        ensures { result ≡ option_and_then (λ files. option_map (λ f. f.done) (slice_get files file)) self.now.files }
    {
        if self.is_telling {
            self.files.is_done(file)
        } else {
            None
        }
    }
}

impl Out for SureOut {
    ghost files = { λ out. out.files };

    ghost calls = { λ _. None };

    ghost faults = { λ _. 0 };

    fn begin(&mut self, path: &[u8]) -> Result<(), Failed>
        ensures sure { IsOk result }
        ensures files { self.new.files ≡ option_and_then (begun_within self.old.room path.now) self.old.files }
        ensures room { self.new.room ≡ self.old.room }
    {
        if self.is_telling && self.files.can_begin(path) {
            self.files.begin(path);
        } else {
            self.is_telling = false;
        }
        Ok(())
    }

    fn write(&mut self, bytes: &[u8]) -> Result<usize, Failed>
        ensures sure { result ≡ Ok (length bytes.now) }
        ensures files { self.new.files ≡ option_and_then (written_within self.old.room bytes.now) self.old.files }
        ensures room { self.new.room ≡ self.old.room }
    {
        if self.is_telling && self.files.can_write(bytes) {
            self.files.write(bytes);
        } else {
            self.is_telling = false;
        }
        Ok(bytes.len())
    }

    fn done(&mut self) -> Result<(), Failed>
        ensures sure { IsOk result }
        ensures files { self.new.files ≡ option_map (at_last finished) self.old.files }
        ensures room { self.new.room ≡ self.old.room }
    {
        self.files.finish();
        Ok(())
    }
}

/// An output in memory, some of whose calls fail: those with the numbers that are to fail, a path or a
/// piece that doesn't fit the rest of the room, and a third path. A call that fails writes nothing.
#[derive(Drop)]
pub struct MemOut {
    files: FileBuffer,
    calls: CallCount,
}

impl Model for MemOut {
    ghost use Rattle.mo_outside.specs.Memory.{MemoryOutput};

    ghost Value = { MemoryOutput };

    ghost view = { λ out. record { files = out.files.files; room = out.files.room; calls = out.calls } };
}

impl MemOut {
    /// An output with room for so many bytes of paths and contents, for which it takes the memory now.
    /// The calls on it that are to fail are given by their numbers, counted from 1.
    pub fn new(alloc: Global, room: u64, failing: CallList) -> Result<MemOut, OutOfMemory>
        ensures { IfOk result (λ out. out ≡ record { files = []; room = room; calls = record { failing = failing; made = 0; faults = 0 } }) }
    {
        let files = FileBuffer::new(alloc, room)?;
        Ok(MemOut {
            files,
            calls: CallCount::new(failing),
        })
    }

    /// The path of a file begun, counted from 0.
    pub fn path(&self, file: usize) -> Option<&[u8]>
        ensures { option_copied result ≡ option_map (λ f. f.path) (slice_get self.now.files file) }
    {
        self.files.path(file)
    }

    /// The bytes that were written of a file begun, counted from 0.
    pub fn bytes(&self, file: usize) -> Option<&[u8]>
        ensures { option_copied result ≡ option_map (λ f. f.bytes) (slice_get self.now.files file) }
    {
        self.files.bytes(file)
    }

    /// Whether a file begun, counted from 0, is done.
    pub fn is_done(&self, file: usize) -> Option<bool>
        ensures { result ≡ option_map (λ f. f.done) (slice_get self.now.files file) }
    {
        self.files.is_done(file)
    }

    /// How many calls failed.
    pub fn fault_count(&self) -> u64
        ensures { result ≡ self.now.calls.faults }
    {
        self.calls.faults()
    }
}

impl Out for MemOut {
    ghost files = { λ out. Some out.files };

    ghost calls = { λ _. None };

    ghost faults = { λ out. out.calls.faults };

    fn begin(&mut self, path: &[u8]) -> Result<(), Failed>
        ensures failed { is_err result ≡ (is_failing self.old.calls || is_none (begun_within self.old.room path.now self.old.files)) }
        ensures ok { OnOk result (begun_within self.old.room path.now self.old.files ≡ Some self.new.files) }
        ensures err { OnErr result (self.new.files ≡ self.old.files) }
        ensures calls { self.new.calls ≡ counted (is_err result) self.old.calls }
        ensures faults { self.old.calls.faults ≤ self.new.calls.faults }
        ensures still { OnOk result (self.new.calls.faults ≡ self.old.calls.faults) }
        ensures room { self.new.room ≡ self.old.room }
    {
        self.calls.count(self.files.can_begin(path))?;
        self.files.begin(path);
        Ok(())
    }

    fn write(&mut self, bytes: &[u8]) -> Result<usize, Failed>
        ensures failed { is_err result ≡ (is_failing self.old.calls || is_none (written_within self.old.room bytes.now self.old.files)) }
        ensures whole { IfOk result (λ count. count ≡ length bytes.now) }
        ensures ok { OnOk result (written_within self.old.room bytes.now self.old.files ≡ Some self.new.files) }
        ensures err { OnErr result (self.new.files ≡ self.old.files) }
        ensures calls { self.new.calls ≡ counted (is_err result) self.old.calls }
        ensures faults { self.old.calls.faults ≤ self.new.calls.faults }
        ensures still { OnOk result (self.new.calls.faults ≡ self.old.calls.faults) }
        ensures room { self.new.room ≡ self.old.room }
    {
        self.calls.count(self.files.can_write(bytes))?;
        self.files.write(bytes);
        Ok(bytes.len())
    }

    fn done(&mut self) -> Result<(), Failed>
        ensures failed { is_err result ≡ is_failing self.old.calls }
        ensures ok { OnOk result (self.new.files ≡ at_last finished self.old.files) }
        ensures err { OnErr result (self.new.files ≡ self.old.files) }
        ensures calls { self.new.calls ≡ counted (is_err result) self.old.calls }
        ensures faults { self.old.calls.faults ≤ self.new.calls.faults }
        ensures still { OnOk result (self.new.calls.faults ≡ self.old.calls.faults) }
        ensures room { self.new.room ≡ self.old.room }
    {
        self.calls.count(true)?;
        self.files.finish();
        Ok(())
    }
}
