//! Writing what is to be written, and saying how a link ended.

ghost use Rattle.std.specs.Prelude.{◌≡◌, ◌≤◌, ◌⊎◌};
ghost use Rattle.mo_outside.specs.Faults.{Rises};
ghost use Rattle.mo_types.specs.Message.{line_of};
ghost use Rattle.mo_types.specs.declared.answer.Status.TheVariants.{Done, WriteFault};
ghost use Rattle.link_engine.specs.Settles.{Carries, CarriesPart, Says, output_seen};

use crate::plan::Plan;
use crate::write::write_files;
use mo_message::tell;
use mo_outside::{Diag, Out};
use mo_types::Status;

// Puts a line, where it isn't empty. A fault is counted where the line goes.
#[tactic(auto, using(crate::proofs::SaysLemmas::says))]
fn say<D: Diag>(diag: &mut D, line: &[u8])
    ensures faults { D.faults diag.old ≤ D.faults diag.new }
    ensures says { Says line.now (¬ Rises (D.faults diag.old) (D.faults diag.new)) (D.lines diag.old) (D.lines diag.new) }
{
    if !line.is_empty() {
        let _ = diag.put(line);
    }
}

// Tells the line of an answer, and the answer.
#[tactic(auto, using(crate::proofs::SaysLemmas::says))]
pub fn ended<D: Diag>(diag: &mut D, written: &[u8], status: Status) -> Status
    ensures faults { D.faults diag.old ≤ D.faults diag.new }
    ensures same { result ≡ status }
    ensures says { Says (line_of written.now status) (¬ Rises (D.faults diag.old) (D.faults diag.new)) (D.lines diag.old) (D.lines diag.new) }
{
    tell(diag, written, &status);
    status
}

/// Writes the files of a plan and puts its line, or tells the path of the file that couldn't be written.
pub fn carry_out<O: Out, D: Diag>(out: &mut O, diag: &mut D, plan: &Plan) -> Status
    ensures out_faults { O.faults out.old ≤ O.faults out.new }
    ensures diag_faults { D.faults diag.old ≤ D.faults diag.new }
    ensures kind { (result ≡ Done) ⊎ (result ≡ WriteFault) }
    ensures still { result ≡ Done → O.faults out.new ≡ O.faults out.old }
    ensures failed { result ≡ WriteFault → Rises (O.faults out.old) (O.faults out.new) }
    ensures done { result ≡ Done → Carries plan.now
        (output_seen O.files O.calls O.faults D.lines D.faults out.old diag.old) (output_seen O.files O.calls O.faults D.lines D.faults out.new diag.new) }
    ensures part { result ≡ WriteFault → CarriesPart plan.now
        (output_seen O.files O.calls O.faults D.lines D.faults out.old diag.old) (output_seen O.files O.calls O.faults D.lines D.faults out.new diag.new) }
{
    let files = plan.files.as_slice();
    match write_files(out, files) {
        Ok(()) => {
            say(diag, plan.line.as_slice());
            Status::Done
        }
        Err(number) => ended(diag, files[number].0.as_slice(), Status::WriteFault),
    }
}
