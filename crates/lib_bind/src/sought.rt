//! Where a re-exported library is that isn't there yet.
ghost use Rattle.std.specs.Prelude.{◌≡◌, None, Some, IfOk, length};
ghost use Rattle.file_cache.specs.Kept.{seen};
ghost use Rattle.file_cache.specs.Program as program;
ghost use Rattle.file_cache.specs.Runs.{Passes, Runs};
ghost use Rattle.mo_types.specs.Gives.{Gives};
ghost use Rattle.lib_bind.specs.Closing as spec;
ghost use Rattle.lib_bind.specs.Closing.{IsBindFault};
ghost use Rattle.lib_bind.specs.Closure as seeking;
ghost use Rattle.lib_bind.specs.Found.{found};
ghost use Rattle.lib_bind.specs.Reexported.{reexported};
ghost use Rattle.lib_bind.specs.inner.Held.{AreThere, Finds, IsOf, Meets};
ghost use Rattle.lib_bind.specs.declared.bind_fault.BindFault.TheVariants.{ReadFault};

use crate::bind_fault::BindFault;
use crate::by_name::ByName;
use crate::growing::{Growing, Reexport, with_file, with_known};
use crate::paths::{plain_path_of, stub_path_of};
use crate::stub_text::read_reexported;
use command_line::Command;
use file_cache::{AskFault, FileCache, ask};
use mo_outside::Files;
use mo_types::{Bytes, ObjFault, Refusal};
use std::alloc::Global;

/// What stands under a path: the first document of the file there, where there is one.
#[derive(Drop)]
pub struct Sought {
    pub document: Option<usize>,
    pub growing: Growing,
}

/// The document of a re-exported library.
#[derive(Drop)]
pub struct Target {
    pub document: usize,
    pub growing: Growing,
}

// What tells the fault of a file.
fn fault_of(file: Bytes, fault: ObjFault) -> BindFault
    ensures { result ≡ spec.fault_of file fault }
{
    match fault {
        ObjFault::Malformed { place, rule } => {
            BindFault::Refused(Refusal::Malformed { file, place, rule })
        }
        ObjFault::Unsupported(feature) => {
            BindFault::Refused(Refusal::Unsupported { file, feature })
        }
        ObjFault::Limit(which) => BindFault::Refused(Refusal::Limit { which }),
        ObjFault::OutOfMemory => BindFault::OutOfMemory,
    }
}

// The documents of a file behind those that are there.
#[tactic(auto, using(crate::proofs::GrowingLemmas::files))]
fn added(
    alloc: Global,
    heads: &ByName<usize>,
    path: &Bytes,
    bytes: &Bytes,
    growing: Growing,
) -> Result<Sought, BindFault>
    requires { found path.now growing.known ≡ None }
    ensures { Gives IsBindFault result (spec.added heads.now path.now (reexported bytes.now) growing) }
{
    match read_reexported(alloc, bytes) {
        Ok(stubs) => {
            let document = Some(growing.documents.len());
            let growing = with_file(alloc, heads, stubs.docs, growing)?;
            let growing = with_known(path, document, growing)?;
            Ok(Sought { document, growing })
        }
        Err(fault) => Err(fault_of(path.clone()?, fault)),
    }
}

// Reads the file at a path of which nothing was known, where there is one.
fn read_at(
    alloc: Global,
    heads: &ByName<usize>,
    path: &Bytes,
    file: Option<Bytes>,
    growing: Growing,
) -> Result<Sought, BindFault>
    requires { found path.now growing.known ≡ None }
    ensures { Gives IsBindFault result (spec.read_at heads.now path.now file growing) }
{
    match file {
        Some(bytes) => added(alloc, heads, path, &bytes, growing),
        None => Ok(Sought {
            document: None,
            growing: with_known(path, None, growing)?,
        }),
    }
}

// What is said of a path, where the fault tells the path.
fn said_of(path: &Bytes, said: Result<Option<Bytes>, AskFault>) -> Result<Option<Bytes>, BindFault>
    ensures { Passes IsBindFault (ReadFault path.now) said result }
{
    match said {
        Ok(file) => Ok(file),
        Err(AskFault::Unread) => Err(BindFault::ReadFault {
            path: path.clone()?,
        }),
        Err(AskFault::OutOfMemory) => Err(BindFault::OutOfMemory),
    }
}

// The file at a path, where there is one.
fn file_at<F: Files>(
    alloc: Global,
    files: &mut F,
    cache: &mut FileCache,
    path: &Bytes,
) -> Result<Option<Bytes>, BindFault>
    ensures { Runs F.answers IsBindFault (program.file_at (ReadFault path.now) path.now) result
        (seen F.holds F.asked F.faults files.old cache.old) (seen F.holds F.asked F.faults files.new cache.new) }
{
    let said = ask(alloc, files, cache, path);
    said_of(path, said)
}

// The first document of the file at a path of which nothing is known.
fn sought_new<F: Files>(
    alloc: Global,
    files: &mut F,
    cache: &mut FileCache,
    heads: &ByName<usize>,
    path: &Bytes,
    growing: Growing,
) -> Result<Sought, BindFault>
    requires new { found path.now growing.known ≡ None }
    requires there { AreThere heads.now growing }
    ensures found { IfOk result (Finds growing) }
    ensures runs { Runs F.answers IsBindFault (seeking.sought_as heads.now path.now None growing) result
        (seen F.holds F.asked F.faults files.old cache.old) (seen F.holds F.asked F.faults files.new cache.new) }
{
    let file = file_at(alloc, files, cache, path)?;
    read_at(alloc, heads, path, file, growing)
}

// The first document of the file at a path.
#[tactic(auto, unfolding(crate::specs::Closure::sought))]
fn at_path<F: Files>(
    alloc: Global,
    files: &mut F,
    cache: &mut FileCache,
    heads: &ByName<usize>,
    path: &Bytes,
    growing: Growing,
) -> Result<Sought, BindFault>
    requires { AreThere heads.now growing }
    ensures found { IfOk result (Finds growing) }
    ensures runs { Runs F.answers IsBindFault (seeking.sought heads.now path.now growing) result
        (seen F.holds F.asked F.faults files.old cache.old) (seen F.holds F.asked F.faults files.new cache.new) }
{
    match growing.known.get(path) {
        Some(document) => Ok(Sought { document, growing }),
        None => sought_new(alloc, files, cache, heads, path, growing),
    }
}

// The document that stands under the second path, or the want of both.
fn last_of(first: &Bytes, there: Sought) -> Result<Target, BindFault>
    ensures { Gives IsBindFault result (spec.last_of first.now there.document there.growing) }
{
    let Sought { document, growing } = there;
    match document {
        Some(document) => Ok(Target { document, growing }),
        None => Err(BindFault::Refused(Refusal::Missing {
            path: first.clone()?,
        })),
    }
}

// The document that stands under the second of two paths, where none does under the first.
fn from_second<F: Files>(
    alloc: Global,
    files: &mut F,
    cache: &mut FileCache,
    heads: &ByName<usize>,
    first: &Bytes,
    second: &Bytes,
    growing: Growing,
) -> Result<Target, BindFault>
    requires { AreThere heads.now growing }
    ensures found { IfOk result (Meets growing) }
    ensures runs { Runs F.answers IsBindFault (seeking.second_of heads.now first.now second.now None growing) result
        (seen F.holds F.asked F.faults files.old cache.old) (seen F.holds F.asked F.faults files.new cache.new) }
{
    let there = at_path(alloc, files, cache, heads, second, growing)?;
    last_of(first, there)
}

// The document that stands under the first of two paths, or else the one under the second.
fn second_of<F: Files>(
    alloc: Global,
    files: &mut F,
    cache: &mut FileCache,
    heads: &ByName<usize>,
    first: &Bytes,
    second: &Bytes,
    there: Sought,
) -> Result<Target, BindFault>
    requires there { AreThere heads.now there.growing }
    requires document { IsOf (length there.growing.documents) there.document }
    ensures found { IfOk result (Meets there.growing) }
    ensures runs { Runs F.answers IsBindFault (seeking.second_of heads.now first.now second.now there.document there.growing) result
        (seen F.holds F.asked F.faults files.old cache.old) (seen F.holds F.asked F.faults files.new cache.new) }
{
    let Sought { document, growing } = there;
    match document {
        Some(document) => Ok(Target { document, growing }),
        None => from_second(alloc, files, cache, heads, first, second, growing),
    }
}

// The first document of the file at the first of two paths, or else at the second.
fn fetched<F: Files>(
    alloc: Global,
    files: &mut F,
    cache: &mut FileCache,
    heads: &ByName<usize>,
    first: &Bytes,
    second: &Bytes,
    growing: Growing,
) -> Result<Target, BindFault>
    requires { AreThere heads.now growing }
    ensures found { IfOk result (Meets growing) }
    ensures runs { Runs F.answers IsBindFault (seeking.fetched heads.now first.now second.now growing) result
        (seen F.holds F.asked F.faults files.old cache.old) (seen F.holds F.asked F.faults files.new cache.new) }
{
    let there = at_path(alloc, files, cache, heads, first, growing)?;
    second_of(alloc, files, cache, heads, first, second, there)
}

// The first document of the file at the paths of an install name.
fn at_paths<F: Files>(
    alloc: Global,
    command: &Command,
    files: &mut F,
    cache: &mut FileCache,
    heads: &ByName<usize>,
    install: &Bytes,
    growing: Growing,
) -> Result<Target, BindFault>
    requires { AreThere heads.now growing }
    ensures found { IfOk result (Meets growing) }
    ensures runs { Runs F.answers IsBindFault (seeking.target_of command.now.syslibroot heads.now install.now None growing) result
        (seen F.holds F.asked F.faults files.old cache.old) (seen F.holds F.asked F.faults files.new cache.new) }
{
    let first = stub_path_of(alloc, command, install.as_slice())?;
    let second = plain_path_of(alloc, command, install.as_slice())?;
    fetched(alloc, files, cache, heads, &first, &second, growing)
}

/// The document of a re-exported library: the one that is there, or else the first one of the file at its path.
pub fn target_of<F: Files>(
    alloc: Global,
    command: &Command,
    files: &mut F,
    cache: &mut FileCache,
    heads: &ByName<usize>,
    reexport: &Reexport,
    growing: Growing,
) -> Result<Target, BindFault>
    requires there { AreThere heads.now growing }
    requires here { IsOf (length growing.documents) reexport.now.here }
    ensures found { IfOk result (Meets growing) }
    ensures runs { Runs F.answers IsBindFault (seeking.target command.now.syslibroot heads.now reexport.now growing) result
        (seen F.holds F.asked F.faults files.old cache.old) (seen F.holds F.asked F.faults files.new cache.new) }
{
    match reexport.here {
        Some(document) => Ok(Target { document, growing }),
        None => at_paths(
            alloc,
            command,
            files,
            cache,
            heads,
            &reexport.install,
            growing,
        ),
    }
}
