ghost use Rattle.std.specs.Prelude.{◌≡◌, ◌++◌, ◌<◌, ◌∷◌, [], ℕ, List, IfOk, OnOk, codes, flat_map, length, slice_index_or};
ghost use Rattle.std.specs.Option.{option_map};
ghost use Rattle.command_line.specs.Paths as paths;
ghost use Rattle.command_line.specs.declared.command.CommandInput.{CommandInput as Input};

use crate::command::{Command, CommandInput, InputForm};
use mo_types::{Bytes, Items, NameList, OutOfMemory};
use std::alloc::Global;

// The path of a file in a directory under a root.
fn path_in(
    alloc: Global,
    root: &[u8],
    directory: &[u8],
    stem: &[u8],
    ending: &[u8],
) -> Result<Bytes, OutOfMemory>
    ensures { IfOk result (λ path. path ≡ (root.now ++ directory.now) ++ codes "/" ++ stem.now ++ ending.now) }
{
    let size = root.len().saturating_add(directory.len()).saturating_add(1);
    let size = size.saturating_add(stem.len()).saturating_add(ending.len());
    let mut path = Vec::with_capacity(alloc, size)?;
    path.extend_from_slice(root)?;
    path.extend_from_slice(directory)?;
    path.push(b'/')?;
    path.extend_from_slice(stem)?;
    path.extend_from_slice(ending)?;
    Ok(Bytes::from_vec(path)?)
}

fn add_path(
    alloc: Global,
    found: &mut NameList,
    root: &[u8],
    directory: &[u8],
    stem: &[u8],
    ending: &[u8],
) -> Result<(), OutOfMemory>
    ensures { OnOk result (found.new ≡ found.old ++ paths.path_in stem.now (root.now ++ directory.now) ending.now ∷ []) }
{
    found.push(path_in(alloc, root, directory, stem, ending)?)
}

// The paths in a directory under a root, with each ending.
fn add_directory(
    alloc: Global,
    found: &mut NameList,
    root: &[u8],
    directory: &[u8],
    stem: &[u8],
    form: InputForm,
) -> Result<(), OutOfMemory>
    ensures { OnOk result (found.new ≡ found.old ++ paths.in_directory form stem.now (root.now ++ directory.now)) }
{
    add_path(alloc, found, root, directory, stem, b".tbd")?;
    match form {
        InputForm::Library => {
            add_path(alloc, found, root, directory, stem, b".dylib")?;
            add_path(alloc, found, root, directory, stem, b".a")
        }
        InputForm::Framework | InputForm::Path => {
            add_path(alloc, found, root, directory, stem, b"")
        }
    }
}

fn add_given(
    alloc: Global,
    found: &mut NameList,
    root: Option<&[u8]>,
    directory: &[u8],
    stem: &[u8],
    form: InputForm,
) -> Result<(), OutOfMemory>
    ensures { OnOk result (found.new ≡ found.old ++ paths.for_directory form stem.now (option_map (λ root. root.now) root.entry) directory.now) }
{
    if let Some(root) = root {
        if directory.starts_with(b"/") {
            add_directory(alloc, found, root, directory, stem, form)?;
        }
    }
    add_directory(alloc, found, b"", directory, stem, form)
}

fn add_all_given(
    alloc: Global,
    found: &mut NameList,
    root: Option<&[u8]>,
    directories: &[Bytes],
    stem: &[u8],
    form: InputForm,
) -> Result<(), OutOfMemory>
    ensures { OnOk result (found.new ≡ found.old ++ flat_map (paths.for_directory form stem.now (option_map (λ root. root.now) root.entry)) directories.now) }
{
    for directory in directories {
        add_given(alloc, found, root, directory.as_slice(), stem, form)?;
    }
    Ok(())
}

fn default_directories(form: InputForm) -> (&'static [u8], &'static [u8])
    ensures { result.0.now ∷ result.1.now ∷ [] ≡ paths.defaults_of form }
{
    match form {
        InputForm::Library => (b"/usr/lib", b"/usr/local/lib"),
        InputForm::Framework | InputForm::Path => {
            (b"/Library/Frameworks", b"/System/Library/Frameworks")
        }
    }
}

#[tactic(auto, using(crate::proofs::PathLemmas::defaults))]
fn add_defaults(
    alloc: Global,
    found: &mut NameList,
    root: Option<&[u8]>,
    stem: &[u8],
    form: InputForm,
) -> Result<(), OutOfMemory>
    ensures { OnOk result (found.new ≡ found.old ++ paths.in_defaults form stem.now (option_map (λ root. root.now) root.entry)) }
{
    let root = root_or_empty(root);
    let (first, second) = default_directories(form);
    add_directory(alloc, found, root, first, stem, form)?;
    add_directory(alloc, found, root, second, stem, form)?;
    Ok(())
}

fn root_or_empty(root: Option<&[u8]>) -> &[u8]
    ensures { result.now ≡ paths.root_or_empty (option_map (λ root. root.now) root.entry) }
{
    match root {
        Some(root) => root,
        None => b"",
    }
}

// The name of the file without its ending.
fn stem_of(alloc: Global, form: InputForm, name: &[u8]) -> Result<Bytes, OutOfMemory>
    ensures { IfOk result (λ stem. stem ≡ paths.stem_of form name.now) }
{
    let mut stem = Vec::new(alloc);
    match form {
        InputForm::Library => stem.extend_from_slice(b"lib")?,
        InputForm::Framework | InputForm::Path => {
            stem.extend_from_slice(name)?;
            stem.extend_from_slice(b".framework/")?;
        }
    }
    stem.extend_from_slice(name)?;
    Ok(Bytes::from_vec(stem)?)
}

fn root_of(command: &Command) -> Option<&[u8]>
    ensures { option_map (λ root. root.now) result ≡ command.now.syslibroot }
{
    match &command.syslibroot {
        Some(root) => Some(root.as_slice()),
        None => None,
    }
}

fn searched(
    alloc: Global,
    command: &Command,
    directories: &[Bytes],
    input: &CommandInput,
) -> Result<NameList, OutOfMemory>
    ensures { IfOk result (λ found. found ≡ paths.searched input.now.form command.now.syslibroot directories.now input.now.value) }
{
    let stem = stem_of(alloc, input.form, input.value.as_slice())?;
    let root = root_of(command);
    let mut found = Items::new(alloc);
    add_all_given(
        alloc,
        &mut found,
        root,
        directories,
        stem.as_slice(),
        input.form,
    )?;
    add_defaults(alloc, &mut found, root, stem.as_slice(), input.form)?;
    Ok(found)
}

fn paths_of(alloc: Global, command: &Command, input: &CommandInput) -> Result<NameList, OutOfMemory>
    ensures { IfOk result (λ found. found ≡ paths.paths_of command.now input.now) }
{
    match input.form {
        InputForm::Path => {
            let mut found = Items::new(alloc);
            found.push(Bytes::from_slice(alloc, input.value.as_slice())?)?;
            Ok(found)
        }
        InputForm::Library => searched(alloc, command, command.library_dirs.as_slice(), input),
        InputForm::Framework => searched(alloc, command, command.framework_dirs.as_slice(), input),
    }
}

/// The paths to try for an input of a command, in order (ld(1)): a path itself, or a library's or a framework's file
/// in each directory.
pub fn paths_for(alloc: Global, command: &Command, input: u32) -> Result<NameList, OutOfMemory>
    requires { input < length command.now.inputs }
    ensures { IfOk result (λ found. (d : Input) → found ≡ paths.paths_of command.now (slice_index_or command.now.inputs input d)) }
{
    paths_of(alloc, command, &command.inputs.as_slice()[input as usize])
}
