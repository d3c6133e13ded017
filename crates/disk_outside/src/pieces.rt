//! Single reads and writes.

ghost use Rattle.std.specs.Prelude.{◌≡◌, ◌<◌, ◌≤◌, length, take, IfOk, OnErr};
ghost use Rattle.std.specs.Io.{ReadsAtMost};
ghost use Rattle.std.specs.Io.KnownBytes.{Appends, Consumes, IsAtEnd, Keeps};

use mo_outside::Failed;
use std::io::{ErrorKind, Read, Write};

/// Reads once into the start of the buffer, and answers how many bytes: 0 at the end. A read that a
/// signal interrupts is tried again.
#[tactic(auto, using(crate::proofs::PieceLemmas::retries))]
pub fn read_piece<R: Read>(from: &mut R, into: &mut [u8]) -> Result<usize, Failed>
    ensures within { ReadsAtMost result into.new }
    ensures ok { IfOk result (λ count. Consumes (R.remaining from.old) (R.remaining from.new) (take count into.new)) }
    ensures end { IfOk result (λ count. count ≡ 0 → 0 < length into.old → IsAtEnd (R.remaining from.new)) }
    ensures err { OnErr result (Keeps (R.remaining from.old) (R.remaining from.new)) }
{
    for _ in 0..u64::MAX {
        match from.read(into) {
            Ok(count) => return Ok(count),
            Err(e) if e.kind() == ErrorKind::Interrupted => {}
            Err(_) => return Err(Failed),
        }
    }
    Err(Failed)
}

/// Writes the first bytes of the piece once, and answers how many: at least one, unless the piece is
/// empty. A write that a signal interrupts is tried again.
#[tactic(auto, using(crate::proofs::PieceLemmas::retries))]
pub fn write_piece<W: Write>(to: &mut W, piece: &[u8]) -> Result<usize, Failed>
    ensures within { IfOk result (λ count. count ≤ length piece.now) }
    ensures some { IfOk result (λ count. 0 < length piece.now → 0 < count) }
    ensures ok { IfOk result (λ count. Appends (W.contents to.old) (W.contents to.new) (take count piece.now)) }
    ensures err { OnErr result (Keeps (W.contents to.old) (W.contents to.new)) }
{
    for _ in 0..u64::MAX {
        match to.write(piece) {
            Ok(0) if !piece.is_empty() => return Err(Failed),
            Ok(count) => return Ok(count),
            Err(e) if e.kind() == ErrorKind::Interrupted => {}
            Err(_) => return Err(Failed),
        }
    }
    Err(Failed)
}
