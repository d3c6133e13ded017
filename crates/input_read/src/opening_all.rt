//! What all inputs are, read by workers.
ghost use Rattle.std.specs.Prelude.{◌≡◌, ℕ, ◌<◌, ◌≤◌, true, length, All, IfOk};
ghost use Rattle.mo_types.specs.Gives.{Gives};
ghost use Rattle.lib_bind.specs.Named.{are_named};
ghost use Rattle.input_files.specs.Files.{IsLoadFault};
ghost use Rattle.input_files.specs.Sources.{AreInOrder, AreObjects, inputs_of};
ghost use Rattle.input_read.specs.Opened as spec;
ghost use Rattle.input_read.specs.Opened.{Opens};
ghost use Rattle.input_read.specs.inner.Pieces.{ArePieces};
ghost use Rattle.input_read.specs.Sound.{IsSound};

use crate::opened::Opened;
use crate::opening::{Opening, open_input};
use crate::sorting::sort;
use input_files::{Input, LoadFault, collect};
use mo_outside::Gate;
use mo_types::{Items, OutOfMemory};
use par_work::{Task, fan};
use std::alloc::Global;
use std::thread::Threads;

// A job for each input: to read it.
#[derive(Drop)]
struct Reading<'a> {
    alloc: Global,
    inputs: &'a [Input],
}

impl<'a> Task for Reading<'a> {
    ghost use Rattle.std.specs.Prelude.{length, slice_index_or};
    ghost use Rattle.input_read.specs.inner.Pieces.{IsReadOf, no_input};

    type Seat = u32;

    type Piece = Result<Opening, LoadFault>;

    ghost jobs = { λ t. length t.inputs.now };

    ghost fits = { λ _ _. Unit {0} };

    ghost ran = { λ t _ job piece _. IsReadOf (slice_index_or t.inputs.now job no_input) piece };

    fn run(&self, _seat: &mut u32, job: u32) -> Result<Opening, LoadFault> {
        open_input(self.alloc, &self.inputs[job as usize])
    }
}

// How many inputs there are: no more than there are positions.
fn count_of(inputs: &[Input]) -> u32
    requires { AreInOrder inputs.now }
    ensures { result ≡ length inputs.now }
{
    if inputs.is_empty() {
        return 0;
    }
    prove!(inputs.len() <= usize::from(inputs[inputs.len() - 1].position) + 1);
    inputs.len() as u32
}

// What reading each of the inputs gave, in their order.
fn pieces_of<R: Threads + Sync, G: Gate + Sync>(
    rt: &R,
    alloc: Global,
    gate: &G,
    workers: u32,
    inputs: &[Input],
) -> Result<Vec<Result<Opening, LoadFault>>, OutOfMemory>
    requires { AreInOrder inputs.now }
    ensures { IfOk result (λ pieces. ArePieces inputs.now pieces.items) }
{
    let count = count_of(inputs);
    let seats = vec![in alloc; 0u32; workers.min(count).max(1) as usize]?;
    let task = Reading { alloc, inputs };
    let (_, pieces) = fan(rt, alloc, gate, seats, &task, count)?;
    Ok(pieces)
}

// What each of the inputs is, or the fault of the first that has one.
#[tactic(auto, using(crate::proofs::PieceLemmas::pieces))]
fn openings_of<R: Threads + Sync, G: Gate + Sync>(
    rt: &R,
    alloc: Global,
    gate: &G,
    workers: u32,
    inputs: &[Input],
) -> Result<Items<Opening>, LoadFault>
    requires { AreInOrder inputs.now }
    ensures exact { Gives IsLoadFault result (spec.openings_of inputs.now) }
    ensures sound { IfOk result (λ openings. All IsSound openings) }
{
    let pieces = pieces_of(rt, alloc, gate, workers, inputs)?;
    collect(Items::new(alloc), pieces)
}

/// Reads inputs, each by one of so many workers (none count as one), and answers the objects and archives, the files of the
/// objects, and the stub libraries, each in the order of the inputs; or the fault of the first input that has one, whichever
/// worker finds it and when. Where no thread can be started the caller reads.
#[tactic(auto, using(crate::proofs::OpenedLemmas::opens))]
pub fn open_inputs<R: Threads + Sync, G: Gate + Sync>(
    rt: &R,
    alloc: Global,
    gate: &G,
    workers: u32,
    inputs: &[Input],
) -> Result<Opened, LoadFault>
    requires order { AreInOrder inputs.now }
    ensures exact { Opens IsLoadFault result (spec.contents_of inputs.now) }
    ensures order { IfOk result (λ opened. AreInOrder (inputs_of opened.sources)) }
    ensures objects { IfOk result (λ opened. AreObjects (inputs_of opened.sources) opened.objects) }
    ensures named { IfOk result (λ opened. (count : ℕ) → All (λ input. input.position < count) inputs.now → are_named count 0 opened.stubs ≡ true) }
{
    let openings = openings_of(rt, alloc, gate, workers, inputs)?;
    Ok(sort(alloc, openings)?)
}
