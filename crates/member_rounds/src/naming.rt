//! The names of the files of a round.
ghost use Rattle.std.specs.Prelude.{◌≡◌, ◌++◌, Some, List, IfErr, IfOk};
ghost use Rattle.mo_types.specs.declared.loaded.LoadedFile.{LoadedFile as File};
ghost use Rattle.name_ids.specs.Names.{AreNames, numbers_of};
ghost use Rattle.input_files.specs.Files.{IsLoadFault};
ghost use Rattle.member_rounds.specs.Rounds.{names_fault};
ghost use Rattle.member_rounds.specs.inner.Naming.{IsBehind, names_before, told_as};
ghost use Rattle.member_rounds.specs.inner.Working.{first_names};

use input_files::LoadFault;
use mo_types::{Bytes, LoadedFile, NameList, Refusal, Which};
use name_ids::{GatherFault, NameTable, Numbered};
use std::alloc::Global;

// How a link tells why names get no numbers.
fn told(fault: GatherFault) -> LoadFault
    ensures { result ≡ told_as fault }
{
    match fault {
        GatherFault::Names => LoadFault::Refused(Refusal::Limit {
            which: Which::Names,
        }),
        GatherFault::OutOfMemory => LoadFault::OutOfMemory,
    }
}

/// The names of the command line, which join and ask in the first round.
pub(crate) fn first_names_at(wanted: &NameList, rounds: usize) -> &[Bytes]
    ensures { result.now ≡ first_names wanted.now rounds }
{
    if rounds == 0 { wanted.as_slice() } else { &[] }
}

/// Names, and further ones that join in a round: in the first one those of the command line, and those of its files. Answers
/// all of them, and the numbers of the files' symbols. Those that symbols of earlier files have stay.
#[tactic(auto, using(crate::proofs::NameLemmas::joining))]
pub(crate) fn name_files(
    alloc: Global,
    names: NameTable,
    wanted: &NameList,
    rounds: usize,
    files: &[LoadedFile],
) -> Result<Numbered, LoadFault>
    ensures names { IfOk result (λ all. (kept : List File) → AreNames kept (names_before wanted.now rounds) names → AreNames (kept ++ files.now) wanted.now all.names) }
    ensures stay { IfOk result (λ all. (kept : List File) → AreNames kept (names_before wanted.now rounds) names → numbers_of all.names kept ≡ numbers_of names kept) }
    ensures behind { IfOk result (λ all. IsBehind names all.names) }
    ensures numbers { IfOk result (λ all. all.numbers ≡ numbers_of all.names files.now) }
    ensures fault { IfErr result (λ fault. IsLoadFault fault → (kept : List File) → AreNames kept (names_before wanted.now rounds) names → names_fault (kept ++ files.now) wanted.now ≡ Some fault) }
{
    let names = match names.with_names(first_names_at(wanted, rounds)) {
        Ok(names) => names,
        Err(fault) => return Err(told(fault)),
    };
    match names.with_files(alloc, files) {
        Ok(all) => Ok(all),
        Err(fault) => Err(told(fault)),
    }
}
