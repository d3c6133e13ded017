//! The link: from the words of a command line and the files that they name to an image.
//!
//! `make_plan` is the link up to writing, in one body from the top down: a line for each step at which a link may be
//! refused, in the order in which refusals count (the words, how many inputs there are, fetching them, reading them,
//! the libraries, the rounds in which members are loaded, the link of what was loaded, and what is written). Its
//! definition `IsVerdict` (`specs/Verdict.antt`) and the causes of its stops (`specs/Causes.antt`) have the same
//! lines in the same order. They stand over a look-up: what stands under each path. What files tell is a finite map
//! from paths to answers (`Answered`, in `specs/Answered.antt`): `link` asks for just the paths that the verdict
//! tries, each once, and its answer, what it writes and what it puts on the messages are the verdict's by every
//! look-up that gives these answers (`Settles`).
//!
//! Laws on the definition: there is a verdict (`a_verdict_exists`) and one at most (`a_verdict_is_one`), it is a stop
//! exactly where that stop's cause stands (`every_refusal_has_its_cause`), and a path that couldn't be read is the
//! one that is told and the last one that is tried (`a_read_fault_names_its_path`). How many workers there are is no
//! part of a command, and so of nothing that a definition looks at (`workers_change_nothing`). Clauses on the
//! program's own call: each answer comes only where its cause stands, and where one stands it comes, unless memory
//! ran out; nothing is written before the whole image is there.
//!
//! A body that refuses every link, that leaves out stub libraries or a step, or that begins a file twice doesn't meet
//! its contract. That memory is found, and that workers ran, is shown by tests alone.
#![tactic(auto)]

ghost use Rattle.std.specs.Prelude.{◌≡◌, ◌≢◌, ◌≤◌, [], ℕ, List, IfSome};
ghost use Rattle.file_cache.specs.Kept.{seen};
ghost use Rattle.file_cache.specs.Runs.{file_in};
ghost use Rattle.mo_cmd.specs.Command.{command_by};
ghost use Rattle.mo_cmd.specs.declared.usage_fault.UsageFault.TheVariants.{At};
ghost use Rattle.mo_outside.specs.Faults.{Rises};
ghost use Rattle.mo_types.specs.declared.answer.Status.TheVariants.{OutOfMemory, ReadFault, Usage, WriteFault};
ghost use Rattle.mo_types.specs.declared.cause.UsageRule.{UsageRule};
ghost use Rattle.link_engine.specs.Answered.{Answered};
ghost use Rattle.link_engine.specs.Command.{linked_rows};
ghost use Rattle.link_engine.specs.Kept.{IsReadWell};
ghost use Rattle.link_engine.specs.Settles.{ExactlyWhere, Settles, output_seen};
ghost use Rattle.link_engine.specs.Verdict.{IsVerdict};

mod bind;
mod files;
mod inputs;
mod laws;
mod plan;
mod run;
mod stop;
mod words;
mod write;

pub use crate::laws::{
    a_read_fault_names_its_path, a_verdict_exists, a_verdict_is_one, an_answer_is_complete,
    every_refusal_has_its_cause, workers_change_nothing,
};
use crate::plan::make_plan;
use crate::run::carry_out;
pub use crate::run::ended;
use crate::stop::status_of;
use file_cache::FileCache;
use mo_outside::{Diag, Files, Gate, Out};
use mo_types::{ArgList, Status};
use std::alloc::Global;
use std::thread::Threads;

/// Links the inputs that the words name, and writes the image.
///
/// The words are those of the command line after the program's name, as `mo_cmd` reads them (ld(1)). Objects, archives,
/// universal files with such a slice, and the texts of stub libraries are inputs. The paths of each input are asked for up to
/// one that is there, then those of re-exported libraries, no path twice. The whole image is in memory before the output is
/// begun, and each write is handed all that is left of it. One line goes to `diag` for each answer but `Done`. Each worker
/// passes the gate before each of its jobs; what is written is the same for every number of workers.
pub fn link<R: Threads + Sync, F: Files, O: Out, D: Diag, G: Gate + Sync>(
    rt: &R,
    alloc: Global,
    words: &ArgList,
    files: &mut F,
    out: &mut O,
    diag: &mut D,
    gate: &G,
) -> Status
    // The files were asked for the paths that the verdict tries, each once, and gave answers; the answer, and what was written
    // and told, is the verdict's on these.
    ensures settles { Answered F.answers words.now (result ≢ OutOfMemory)
        (λ is. Settles is result
        (output_seen O.files O.calls O.faults D.lines D.faults out.old diag.old) (output_seen O.files O.calls O.faults D.lines D.faults out.new diag.new))
        (seen F.holds F.asked F.faults files.old []) (seen F.holds F.asked F.faults files.new []) }
    // Where the files tell what they hold, and each was read, it is the verdict on that.
    ensures told { IfSome (F.holds files.old) (λ held. IsReadWell result → Settles (IsVerdict words.now (file_in held)) result
        (output_seen O.files O.calls O.faults D.lines D.faults out.old diag.old) (output_seen O.files O.calls O.faults D.lines D.faults out.new diag.new)) }
    ensures usage { (word : ℕ) (rule : UsageRule)
        → ExactlyWhere (command_by linked_rows words.now ≡ Err (At word rule)) (Usage word rule) result }

    // The faults.
    ensures read_fault { (path : List ℕ) → result ≡ ReadFault path → Rises (F.faults files.old) (F.faults files.new) }
    ensures write_fault { result ≡ WriteFault → Rises (O.faults out.old) (O.faults out.new) }
    ensures files_still { IsReadWell result → F.faults files.new ≡ F.faults files.old }
    ensures out_still { result ≢ WriteFault → O.faults out.new ≡ O.faults out.old }

    // The outside.
    ensures holds { F.holds files.new ≡ F.holds files.old }
    ensures files_faults { F.faults files.old ≤ F.faults files.new }
    ensures out_faults { O.faults out.old ≤ O.faults out.new }
    ensures diag_faults { D.faults diag.old ≤ D.faults diag.new }
{
    let mut cache = FileCache::new(alloc);
    match make_plan(rt, alloc, gate, words, files, &mut cache) {
        Ok(plan) => carry_out(out, diag, &plan),
        Err(fault) => ended(diag, b"", status_of(fault)),
    }
}
