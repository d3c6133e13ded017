ghost use Rattle.std.specs.Prelude.{◌≡◌, [], IfOk, IsSome, Some, is_some, is_none, slice_get, option_map};
ghost use Rattle.std.specs.Option.{option_copied};
ghost use Rattle.mo_outside.specs.Room.{begun_within, written_within};
ghost use Rattle.mo_outside.specs.Written.{at_last, finished};

use crate::buffer::Buffer;
use mo_types::OutOfMemory;
use std::alloc::Global;
use std::marker::Model;

/// Where the path of a file ends in the buffer, and whether the file is done.
#[derive(Clone, Copy)]
pub struct Extent {
    pub path_end: usize,
    pub done: bool,
}

/// The files in the buffer: the first one begins at its start, the last one ends at its end.
#[derive(Clone, Copy)]
pub enum Begun {
    Nothing,
    First(Extent),
    /// The first file, where it ends and the second one begins, and the second one.
    Second(Extent, usize, Extent),
}

/// At most two files, whose paths and contents stand one after the other in one buffer.
#[derive(Drop)]
pub struct FileBuffer {
    buffer: Buffer,
    begun: Begun,
}

impl Model for FileBuffer {
    ghost use Rattle.std.specs.Prelude.{length};
    ghost use Rattle.mo_outside.specs.Room.{FilledFiles};

    ghost Value = { FilledFiles };

    ghost use Rattle.mo_outside.specs.Buffers.{files_in, IsWithin};

    ghost view = { λ held. record { files = files_in held.buffer.bytes held.begun; room = held.buffer.room } };

    ghost invariant = { λ held. IsWithin (length held.buffer.bytes) held.begun };
}

impl FileBuffer {
    /// No files yet, and room for so many bytes of paths and contents together.
    pub fn new(alloc: Global, room: u64) -> Result<FileBuffer, OutOfMemory>
        ensures { IfOk result (λ held. held ≡ record { files = []; room = room }) }
    {
        let buffer = Buffer::new(alloc, room)?;
        Ok(FileBuffer {
            buffer,
            begun: Begun::Nothing,
        })
    }

    /// Whether a file of this path may be begun: there are fewer than two, and room for the path.
    pub fn can_begin(&self, path: &[u8]) -> bool
        ensures { result ≡ is_some (begun_within self.now.room path.now self.now.files) }
    {
        match self.begun {
            Begun::Nothing | Begun::First(_) => self.buffer.fits(path),
            Begun::Second(..) => false,
        }
    }

    /// Begins a file, which takes no memory.
    pub fn begin(&mut self, path: &[u8])
        requires { IsSome (begun_within self.old.room path.now self.old.files) }
        ensures files { begun_within self.old.room path.now self.old.files ≡ Some self.new.files }
        ensures room { self.new.room ≡ self.old.room }
    {
        let start = self.buffer.as_slice().len();
        self.buffer.append(path);
        let file = Extent {
            path_end: start + path.len(),
            done: false,
        };
        self.begun = match self.begun {
            Begun::Nothing => Begun::First(file),
            Begun::First(first) => Begun::Second(first, start, file),
            Begun::Second(..) => unreachable!(),
        };
    }

    /// Whether there is room for a piece of the last file.
    pub fn can_write(&self, piece: &[u8]) -> bool
        ensures { result ≡ is_some (written_within self.now.room piece.now self.now.files) }
    {
        self.buffer.fits(piece)
    }

    /// Appends a piece to the last file, which takes no memory.
    pub fn write(&mut self, piece: &[u8])
        requires { IsSome (written_within self.old.room piece.now self.old.files) }
        ensures files { written_within self.old.room piece.now self.old.files ≡ Some self.new.files }
        ensures room { self.new.room ≡ self.old.room }
    {
        match self.begun {
            Begun::Nothing => {}
            Begun::First(_) | Begun::Second(..) => self.buffer.append(piece),
        }
    }

    /// Says that the last file is done.
    pub fn finish(&mut self)
        ensures files { self.new.files ≡ at_last finished self.old.files }
        ensures room { self.new.room ≡ self.old.room }
    {
        self.begun = match self.begun {
            Begun::Nothing => Begun::Nothing,
            Begun::First(file) => Begun::First(Extent { done: true, ..file }),
            Begun::Second(first, end, file) => {
                Begun::Second(first, end, Extent { done: true, ..file })
            }
        };
    }

    /// The path of a file, by its index from 0.
    pub fn path(&self, file: usize) -> Option<&[u8]>
        ensures { option_copied result ≡ option_map (λ f. f.path) (slice_get self.now.files file) }
    {
        let bytes = self.buffer.as_slice();
        match (self.begun, file) {
            (Begun::First(first) | Begun::Second(first, _, _), 0) => Some(&bytes[..first.path_end]),
            (Begun::Second(_, end, second), 1) => Some(&bytes[end..second.path_end]),
            _ => None,
        }
    }

    /// The contents of a file so far, by its index from 0.
    pub fn bytes(&self, file: usize) -> Option<&[u8]>
        ensures { option_copied result ≡ option_map (λ f. f.bytes) (slice_get self.now.files file) }
    {
        let bytes = self.buffer.as_slice();
        match (self.begun, file) {
            (Begun::First(first), 0) => Some(&bytes[first.path_end..]),
            (Begun::Second(first, end, _), 0) => Some(&bytes[first.path_end..end]),
            (Begun::Second(_, _, second), 1) => Some(&bytes[second.path_end..]),
            _ => None,
        }
    }

    /// Whether a file is done, by its index from 0.
    pub fn is_done(&self, file: usize) -> Option<bool>
        ensures { result ≡ option_map (λ f. f.done) (slice_get self.now.files file) }
    {
        match (self.begun, file) {
            (Begun::First(first) | Begun::Second(first, _, _), 0) => Some(first.done),
            (Begun::Second(_, _, second), 1) => Some(second.done),
            _ => None,
        }
    }
}
