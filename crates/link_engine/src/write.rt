//! Writing the files of a plan.

ghost use Rattle.std.specs.Prelude.{◌≡◌, ◌≤◌, ◌<◌, [], length, OnOk, OnErr, IfErr};
ghost use Rattle.mo_outside.specs.Faults.{Rises};
ghost use Rattle.mo_outside.specs.Tells.{Tells};
ghost use Rattle.mo_outside.specs.Written.{Takes, TakesSome};
ghost use Rattle.link_engine.specs.Writing.{AreCallsUpTo, AreCut, AreFileCalls, AreFilesCalls, ArePartCalls, AreWrites};
ghost use Rattle.link_engine.specs.Writing.{Hands, WritesAll, WritesPart, WritesUpTo, WritesWhole};

use mo_outside::{Failed, Out};
use mo_types::Bytes;

// Writes all bytes to the file that was begun last. Each piece is all that is left.
#[tactic(auto, using(crate::proofs::WritingLemmas::pieces))]
fn write_all<O: Out>(out: &mut O, bytes: &[u8]) -> Result<(), Failed>
    ensures faults { O.faults out.old ≤ O.faults out.new }
    ensures still { OnOk result (O.faults out.new ≡ O.faults out.old) }
    ensures ok { OnOk result (Tells (Takes bytes.now (length bytes.now)) (O.files out.old) (O.files out.new)) }
    ensures err { OnErr result (Tells (TakesSome bytes.now) (O.files out.old) (O.files out.new)) }
    ensures calls { OnOk result (Tells (Hands (AreWrites bytes.now [])) (O.calls out.old) (O.calls out.new)) }
    ensures cut { OnErr result (Tells (Hands (AreCut bytes.now)) (O.calls out.old) (O.calls out.new)) }
    ensures failed { OnErr result (Rises (O.faults out.old) (O.faults out.new)) }
{
    let mut at = 0;
    while at < bytes.len() {
        at += out.write(&bytes[at..])?;
    }
    Ok(())
}

// Begins a file, writes its bytes to it, and marks it done.
#[tactic(auto, using(crate::proofs::WritingLemmas::writings))]
fn write<O: Out>(out: &mut O, file: &(Bytes, Bytes)) -> Result<(), Failed>
    ensures faults { O.faults out.old ≤ O.faults out.new }
    ensures still { OnOk result (O.faults out.new ≡ O.faults out.old) }
    ensures ok { OnOk result (Tells (WritesWhole file.now) (O.files out.old) (O.files out.new)) }
    ensures err { OnErr result (Tells (WritesPart file.now) (O.files out.old) (O.files out.new)) }
    ensures calls { OnOk result (Tells (Hands (AreFileCalls file.now)) (O.calls out.old) (O.calls out.new)) }
    ensures cut { OnErr result (Tells (Hands (ArePartCalls file.now)) (O.calls out.old) (O.calls out.new)) }
    ensures failed { OnErr result (Rises (O.faults out.old) (O.faults out.new)) }
{
    out.begin(file.0.as_slice())?;
    write_all(out, file.1.as_slice())?;
    out.done()?;
    Ok(())
}

/// Writes the files, one after the other, up to one that fails, whose number is answered.
#[tactic(auto, using(crate::proofs::FilesLemmas::files))]
pub fn write_files<O: Out>(out: &mut O, files: &[(Bytes, Bytes)]) -> Result<(), usize>
    ensures faults { O.faults out.old ≤ O.faults out.new }
    ensures still { OnOk result (O.faults out.new ≡ O.faults out.old) }
    ensures within { IfErr result (λ number. number < length files.now) }
    ensures ok { OnOk result (Tells (WritesAll files.now) (O.files out.old) (O.files out.new)) }
    ensures err { IfErr result (λ number. Tells (WritesUpTo files.now number) (O.files out.old) (O.files out.new)) }
    ensures calls { OnOk result (Tells (Hands (AreFilesCalls files.now)) (O.calls out.old) (O.calls out.new)) }
    ensures cut { IfErr result (λ number. Tells (Hands (AreCallsUpTo files.now number)) (O.calls out.old) (O.calls out.new)) }
    ensures failed { OnErr result (Rises (O.faults out.old) (O.faults out.new)) }
{
    for (number, file) in files.iter().enumerate() {
        match write(out, file) {
            Ok(()) => {}
            Err(_) => return Err(number),
        }
    }
    Ok(())
}
