ghost use Rattle.std.specs.Prelude.{◌≡◌, ◌≤◌, ◌||◌, OnOk, OnErr, is_err, is_none, [], IfOk, IsOk, Some, option_and_then};
ghost use Rattle.std.specs.Option.{option_copied};
ghost use Rattle.mo_outside.specs.Calls.{is_failing, counted};
ghost use Rattle.mo_outside.specs.Room.{put_within};

use crate::buffer::Buffer;
use crate::calls::{CallCount, CallList};
use crate::traits::{Diag, Failed};
use mo_types::OutOfMemory;
use std::alloc::Global;
use std::marker::Model;

/// A place for messages in memory that never fails. It stops telling them at the first message that
/// doesn't fit the rest of the room.
#[derive(Drop)]
pub struct SureDiag {
    lines: Buffer,
    is_telling: bool,
}

impl Model for SureDiag {
    ghost use Rattle.std.specs.Prelude.{Some, None, if◌then◌else◌};
    ghost use Rattle.mo_outside.specs.Memory.{SureMessages};

    ghost Value = { SureMessages };

    ghost view = { λ diag. record { lines = if diag.is_telling then Some diag.lines.bytes else None; room = diag.lines.room } };
}

impl SureDiag {
    /// A place with room for so many bytes of messages, for which it takes the memory now.
    pub fn new(alloc: Global, room: u64) -> Result<SureDiag, OutOfMemory>
        ensures { IfOk result (λ diag. diag ≡ record { lines = Some []; room = room }) }
    {
        let lines = Buffer::new(alloc, room)?;
        Ok(SureDiag {
            lines,
            is_telling: true,
        })
    }

    /// The messages that were put, where it tells them.
    pub fn lines(&self) -> Option<&[u8]>
        ensures { option_copied result ≡ self.now.lines }
    {
        if self.is_telling {
            Some(self.lines.as_slice())
        } else {
            None
        }
    }
}

impl Diag for SureDiag {
    ghost lines = { λ diag. diag.lines };

    ghost faults = { λ _. 0 };

    fn put(&mut self, bytes: &[u8]) -> Result<(), Failed>
        ensures sure { IsOk result }
        ensures lines { self.new.lines ≡ option_and_then (put_within self.old.room bytes.now) self.old.lines }
        ensures room { self.new.room ≡ self.old.room }
    {
        if self.is_telling && self.lines.fits(bytes) {
            self.lines.append(bytes);
        } else {
            self.is_telling = false;
        }
        Ok(())
    }
}

/// A place for messages in memory, where some calls fail: those with the numbers that are to fail, and a
/// message that doesn't fit the rest of the room. A call that fails puts nothing.
#[derive(Drop)]
pub struct MemDiag {
    lines: Buffer,
    calls: CallCount,
}

impl Model for MemDiag {
    ghost use Rattle.mo_outside.specs.Memory.{MemoryMessages};

    ghost Value = { MemoryMessages };

    ghost view = { λ diag. record { lines = diag.lines.bytes; room = diag.lines.room; calls = diag.calls } };
}

impl MemDiag {
    /// A place with room for so many bytes of messages, for which it takes the memory now. The calls on it
    /// that are to fail are given by their numbers, counted from 1.
    pub fn new(alloc: Global, room: u64, failing: CallList) -> Result<MemDiag, OutOfMemory>
        ensures { IfOk result (λ diag. diag ≡ record { lines = []; room = room; calls = record { failing = failing; made = 0; faults = 0 } }) }
    {
        let lines = Buffer::new(alloc, room)?;
        Ok(MemDiag {
            lines,
            calls: CallCount::new(failing),
        })
    }

    /// The messages that were put.
    pub fn lines(&self) -> &[u8]
        ensures { result.now ≡ self.now.lines }
    {
        self.lines.as_slice()
    }

    /// How many calls failed.
    pub fn fault_count(&self) -> u64
        ensures { result ≡ self.now.calls.faults }
    {
        self.calls.faults()
    }
}

impl Diag for MemDiag {
    ghost lines = { λ diag. Some diag.lines };

    ghost faults = { λ diag. diag.calls.faults };

    fn put(&mut self, bytes: &[u8]) -> Result<(), Failed>
        ensures failed { is_err result ≡ (is_failing self.old.calls || is_none (put_within self.old.room bytes.now self.old.lines)) }
        ensures ok { OnOk result (put_within self.old.room bytes.now self.old.lines ≡ Some self.new.lines) }
        ensures err { OnErr result (self.new.lines ≡ self.old.lines) }
        ensures calls { self.new.calls ≡ counted (is_err result) self.old.calls }
        ensures faults { self.old.calls.faults ≤ self.new.calls.faults }
        ensures still { OnOk result (self.new.calls.faults ≡ self.old.calls.faults) }
        ensures room { self.new.room ≡ self.old.room }
    {
        self.calls.count(self.lines.fits(bytes))?;
        self.lines.append(bytes);
        Ok(())
    }
}
