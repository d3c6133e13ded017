//! Messages on a writer, as standard error.

ghost use Rattle.std.specs.Prelude.{◌≡◌, ◌≤◌, length, take, is_err, None, OnOk, OnErr};
ghost use Rattle.disk_outside.specs.Faults.{counted};
ghost use Rattle.mo_outside.specs.Faults.{Rises};
ghost use Rattle.std.specs.Io.KnownBytes.{Appends};
ghost use Rattle.disk_outside.specs.Pieces.{AppendsPart};

use crate::faults::count;
use crate::pieces::write_piece;
use mo_outside::{Diag, Failed};
use std::io::Write;
use std::marker::Model;

/// A place for messages, as standard error, which doesn't tell what it holds.
#[derive(Drop)]
pub struct WriterDiag<W> {
    to: W,
    faults: u64,
}

impl<W> Model for WriterDiag<W> {
    ghost use Rattle.disk_outside.specs.Adapters.{WriterMessages};

    ghost Value = { WriterMessages W };

    ghost view = { λ diag. record { to = diag.to; faults = diag.faults } };
}

impl<W: Write> WriterDiag<W> {
    pub fn new(to: W) -> WriterDiag<W>
        ensures to { result.to ≡ to }
        ensures faults { result.faults ≡ 0 }
    {
        WriterDiag { to, faults: 0 }
    }
}

fn write_whole<W: Write>(to: &mut W, bytes: &[u8]) -> Result<(), Failed>
    ensures ok { OnOk result (Appends (W.contents to.old) (W.contents to.new) bytes.now) }
    ensures err { OnErr result (AppendsPart (W.contents to.old) (W.contents to.new) bytes.now) }
{
    let mut at = 0;
    while at < bytes.len() {
        at += write_piece(to, &bytes[at..])?;
    }
    Ok(())
}

impl<W: Write> Diag for WriterDiag<W> {
    ghost lines = { λ _. None };

    ghost faults = { λ diag. diag.faults };

    fn put(&mut self, bytes: &[u8]) -> Result<(), Failed>
        ensures counts { self.new.faults ≡ counted (is_err result) self.old.faults }
        ensures faults { self.old.faults ≤ self.new.faults }
        ensures still { OnOk result (self.new.faults ≡ self.old.faults) }
        ensures failed { OnErr result (Rises self.old.faults self.new.faults) }
        ensures ok { OnOk result (Appends (W.contents self.old.to) (W.contents self.new.to) bytes.now) }
        ensures err { OnErr result (AppendsPart (W.contents self.old.to) (W.contents self.new.to) bytes.now) }
    {
        let put = write_whole(&mut self.to, bytes);
        if put.is_err() {
            count(&mut self.faults);
        }
        put
    }
}
