//! The files of inputs are asked for.
ghost use Rattle.std.specs.Prelude.{◌≡◌, ◌<◌, ◌≤◌, ◌^◌, [], IfOk, get_or, length};
ghost use Rattle.file_cache.specs.Kept.{seen};
ghost use Rattle.file_cache.specs.Program as program;
ghost use Rattle.file_cache.specs.Runs.{Passes, Runs};
ghost use Rattle.input_fetch.specs.Contents.{IsFetchStop, content_of, contents_of, first_of, places_of};
ghost use Rattle.input_fetch.specs.declared.stop.FetchStop.TheVariants.{ReadFault};

use crate::content::{Content, ContentList};
use crate::stop::FetchStop;
use command_line::{Command, paths_for};
use file_cache::{AskFault, FileCache, ask};
use mo_outside::Files;
use mo_types::{Bytes, Items};
use std::alloc::{AllocError, Global};

// What was answered for a path, where it could be read.
fn passed(path: &Bytes, asked: Result<Option<Bytes>, AskFault>) -> Result<Option<Bytes>, FetchStop>
    ensures { Passes IsFetchStop (ReadFault path.now) asked result }
{
    match asked {
        Ok(file) => Ok(file),
        Err(AskFault::Unread) => Err(FetchStop::ReadFault {
            path: path.clone()?,
        }),
        Err(AskFault::OutOfMemory) => Err(FetchStop::OutOfMemory),
    }
}

// The bytes of a file, or the first 2^30 of them, where one has the path.
fn file_at<F: Files>(
    alloc: Global,
    files: &mut F,
    cache: &mut FileCache,
    path: &Bytes,
) -> Result<Option<Bytes>, FetchStop>
    ensures { Runs F.answers IsFetchStop (program.file_at (ReadFault path.now) path.now) result
        (seen F.holds F.asked F.faults files.old cache.old) (seen F.holds F.asked F.faults files.new cache.new) }
{
    let asked = ask(alloc, files, cache, path);
    passed(path, asked)
}

// A copy of the first of an input's paths.
#[tactic(auto, using(crate::proofs::PlaceLemmas::first_at))]
fn first_path(paths: &[Bytes]) -> Result<Bytes, AllocError>
    requires { 0 < length paths.now }
    ensures { IfOk result (λ path. path ≡ first_of paths.now) }
{
    paths[0].clone()
}

// The file of an input: that of the first of its paths that is there.
fn first_there<F: Files>(
    alloc: Global,
    files: &mut F,
    cache: &mut FileCache,
    paths: &[Bytes],
) -> Result<Content, FetchStop>
    requires { 0 < length paths.now }
    ensures { Runs F.answers IsFetchStop (content_of (first_of paths.now) paths.now) result
        (seen F.holds F.asked F.faults files.old cache.old) (seen F.holds F.asked F.faults files.new cache.new) }
{
    for path in paths {
        if let Some(bytes) = file_at(alloc, files, cache, path)? {
            return Ok(Content {
                label: path.clone()?,
                bytes,
            });
        }
    }
    Err(FetchStop::Missing {
        path: first_path(paths)?,
    })
}

// The file of the input at a place.
fn content_at<F: Files>(
    alloc: Global,
    files: &mut F,
    cache: &mut FileCache,
    command: &Command,
    at: u32,
) -> Result<Content, FetchStop>
    requires { at < length command.now.inputs }
    ensures { let paths = get_or (places_of command.now) at [] in
        Runs F.answers IsFetchStop (content_of (first_of paths) paths) result
        (seen F.holds F.asked F.faults files.old cache.old) (seen F.holds F.asked F.faults files.new cache.new) }
{
    let paths = paths_for(alloc, command, at)?;
    first_there(alloc, files, cache, paths.as_slice())
}

/// Fetches the files of a command's inputs, in their order: of each the file under the first of its paths that is there.
/// The first input that has no file, or of which a path couldn't be read, ends it. No path is asked for that was before.
pub fn fetch_inputs<F: Files>(
    alloc: Global,
    files: &mut F,
    cache: &mut FileCache,
    command: &Command,
) -> Result<ContentList, FetchStop>
    // Inputs are numbered in 32 bits.
    requires { length command.now.inputs ≤ 2 ^ 32 }
    ensures runs { Runs F.answers IsFetchStop (contents_of (places_of command.now)) result
        (seen F.holds F.asked F.faults files.old cache.old) (seen F.holds F.asked F.faults files.new cache.new) }
    ensures size { IfOk result (λ contents. length contents ≡ length command.now.inputs) }
{
    let mut contents = Items::new(alloc);
    for at in 0..command.inputs.len() {
        contents.push(content_at(alloc, files, cache, command, at as u32)?)?;
    }
    Ok(contents)
}
