//! The program, over any words, files, output and messages.

ghost use Rattle.std.specs.Prelude.{◌≡◌, ◌≢◌, [], IfOk, IfErr};
ghost use Rattle.mo_types.specs.declared.answer.Status.TheVariants as answer;
ghost use Rattle.file_cache.specs.Kept.{seen};
ghost use Rattle.link_engine.specs.Answered.{Answered};
ghost use Rattle.link_engine.specs.Settles.{Stopped, output_seen};
ghost use Rattle.atomld.specs.Exits.{Exits};
ghost use Rattle.atomld.specs.Links.{Links};

use link_engine::{ended, link};
use mo_outside::{Diag, Files, FreeGate, Out};
use mo_types::{ArgList, OutOfMemory, Status};
use std::alloc::Global;
use std::thread::Threads;

// Links what the words say, and answers the exit status.
fn link_words<R: Threads + Sync, F: Files, O: Out, D: Diag>(
    rt: &R,
    alloc: Global,
    words: &ArgList,
    files: &mut F,
    out: &mut O,
    diag: &mut D,
) -> u8
    ensures exits { Answered F.answers words.now (result ≢ 4)
        (λ is. Exits is result
        (output_seen O.files O.calls O.faults D.lines D.faults out.old diag.old) (output_seen O.files O.calls O.faults D.lines D.faults out.new diag.new))
        (seen F.holds F.asked F.faults files.old []) (seen F.holds F.asked F.faults files.new []) }
    ensures links { result ≡ 0 → Links F.answers words.now
        (seen F.holds F.asked F.faults files.old []) (seen F.holds F.asked F.faults files.new [])
        (output_seen O.files O.calls O.faults D.lines D.faults out.old diag.old) (output_seen O.files O.calls O.faults D.lines D.faults out.new diag.new) }
{
    link(rt, alloc, words, files, out, diag, &FreeGate).code()
}

/// Links what the words say, or tells that memory for them was refused, and answers the exit status.
#[tactic(auto, using(crate::proofs::ExitLemmas::values))]
pub fn run<R: Threads + Sync, F: Files, O: Out, D: Diag>(
    rt: &R,
    alloc: Global,
    words: Result<ArgList, OutOfMemory>,
    files: &mut F,
    out: &mut O,
    diag: &mut D,
) -> u8
    ensures exits { IfOk words (λ words. Answered F.answers words (result ≢ 4)
        (λ is. Exits is result
        (output_seen O.files O.calls O.faults D.lines D.faults out.old diag.old) (output_seen O.files O.calls O.faults D.lines D.faults out.new diag.new))
        (seen F.holds F.asked F.faults files.old []) (seen F.holds F.asked F.faults files.new [])) }
    // Where it answers success, what was written links the files that were loaded.
    ensures links { IfOk words (λ words. result ≡ 0 → Links F.answers words
        (seen F.holds F.asked F.faults files.old []) (seen F.holds F.asked F.faults files.new [])
        (output_seen O.files O.calls O.faults D.lines D.faults out.old diag.old) (output_seen O.files O.calls O.faults D.lines D.faults out.new diag.new)) }
    ensures memory { IfErr words (λ fault. result ≡ 4) }
    ensures stopped { IfErr words (λ fault. Stopped answer.OutOfMemory
        (output_seen O.files O.calls O.faults D.lines D.faults out.old diag.old) (output_seen O.files O.calls O.faults D.lines D.faults out.new diag.new)) }
{
    match words {
        Ok(words) => link_words(rt, alloc, &words, files, out, diag),
        Err(OutOfMemory) => ended(diag, b"", Status::OutOfMemory).code(),
    }
}
