ghost use Rattle.std.specs.Prelude.{◌≡◌, ◌≤◌, ◌+◌, ◌++◌, ◌↔◌, [], length, IfOk, IsTrue};

use mo_types::OutOfMemory;
use std::alloc::Global;
use std::marker::Model;

/// Bytes with room for more, which was taken at the start.
#[derive(Drop)]
pub struct Buffer {
    bytes: Vec<u8>,
    room: usize,
}

impl Model for Buffer {
    ghost use Rattle.std.specs.Prelude.{◌≤◌, vec_len, vec_capacity};
    ghost use Rattle.mo_outside.specs.Room.{Filled};

    ghost Value = { Filled };

    ghost view = { λ buffer. record { bytes = buffer.bytes.items; room = buffer.room } };

    ghost invariant = { λ buffer. (vec_len buffer.bytes ≤ buffer.room) × (buffer.room ≤ vec_capacity buffer.bytes) };
}

impl Buffer {
    /// An empty buffer with room for so many bytes, the only memory that it takes.
    pub fn new(alloc: Global, room: u64) -> Result<Buffer, OutOfMemory>
        ensures { IfOk result (λ buffer. buffer ≡ record { bytes = []; room = room }) }
    {
        let room = room as usize;
        let bytes = Vec::with_capacity(alloc, room)?;
        Ok(Buffer { bytes, room })
    }

    /// Whether there is room for these bytes.
    pub fn fits(&self, more: &[u8]) -> bool
        ensures { IsTrue result ↔ (length self.now.bytes + length more.now ≤ self.now.room) }
    {
        more.len() <= self.room - self.bytes.len()
    }

    /// Appends bytes, which takes no memory.
    pub fn append(&mut self, more: &[u8])
        requires { length self.old.bytes + length more.now ≤ self.old.room }
        ensures { self.new ≡ record self.old { bytes = self.old.bytes ++ more.now } }
    {
        self.bytes.extend_from_slice(more).unwrap();
    }

    /// The bytes that were appended, in order.
    pub fn as_slice(&self) -> &[u8]
        ensures bytes { result.now ≡ self.now.bytes }
        ensures within { length self.now.bytes ≤ self.now.room }
    {
        self.bytes.as_slice()
    }
}
