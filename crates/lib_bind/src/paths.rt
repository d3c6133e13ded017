ghost use Rattle.std.specs.Prelude.{◌≡◌, ◌++◌, IfOk, codes};
ghost use Rattle.command_line.specs.Paths.{root_or_empty};
ghost use Rattle.lib_bind.specs.Paths as paths;

use command_line::Command;
use mo_types::{Bytes, Items, NameList, OutOfMemory};
use std::alloc::Global;

// The root of absolute paths.
fn root_of(command: &Command) -> &[u8]
    ensures { result.now ≡ root_or_empty command.now.syslibroot }
{
    match &command.syslibroot {
        Some(root) => root.as_slice(),
        None => b"",
    }
}

// An install name without a final `.dylib`.
fn stem_of(install: &[u8]) -> &[u8]
    ensures { result.now ≡ paths.stem_of install.now }
{
    if install.ends_with(b".dylib") {
        &install[..install.len() - 6]
    } else {
        install
    }
}

// The path of a stub library under a root.
fn stub_path(alloc: Global, root: &[u8], stem: &[u8]) -> Result<Bytes, OutOfMemory>
    ensures { IfOk result (λ path. path ≡ root.now ++ stem.now ++ codes ".tbd") }
{
    let size = root.len().saturating_add(stem.len()).saturating_add(4);
    let mut path = Vec::with_capacity(alloc, size)?;
    path.extend_from_slice(root)?;
    path.extend_from_slice(stem)?;
    path.extend_from_slice(b".tbd")?;
    Ok(Bytes::from_vec(path)?)
}

// A path under a root.
fn path_under(alloc: Global, root: &[u8], name: &[u8]) -> Result<Bytes, OutOfMemory>
    ensures { IfOk result (λ path. path ≡ root.now ++ name.now) }
{
    let mut path = Vec::with_capacity(alloc, root.len().saturating_add(name.len()))?;
    path.extend_from_slice(root)?;
    path.extend_from_slice(name)?;
    Ok(Bytes::from_vec(path)?)
}

/// The path of the stub library that takes the place of one with this install name.
pub(crate) fn stub_path_of(
    alloc: Global,
    command: &Command,
    install: &[u8],
) -> Result<Bytes, OutOfMemory>
    ensures { IfOk result (λ path. path ≡ paths.stub_path command.now.syslibroot install.now) }
{
    stub_path(alloc, root_of(command), stem_of(install))
}

/// The path that is the install name as it stands.
pub(crate) fn plain_path_of(
    alloc: Global,
    command: &Command,
    install: &[u8],
) -> Result<Bytes, OutOfMemory>
    ensures { IfOk result (λ path. path ≡ paths.plain_path command.now.syslibroot install.now) }
{
    path_under(alloc, root_of(command), install)
}

/// The paths to try for a library that another one re-exports by this install name, in order: under the root (ld(1):
/// `-syslibroot`) the stub library whose ending takes the place of a final `.dylib`, or is added, and then the install
/// name as it stands.
pub fn reexport_paths(
    alloc: Global,
    command: &Command,
    install: &[u8],
) -> Result<NameList, OutOfMemory>
    ensures { IfOk result (λ found. found ≡ paths.reexport_paths command.now.syslibroot install.now) }
{
    let mut found = Items::new(alloc);
    found.push(stub_path_of(alloc, command, install)?)?;
    found.push(plain_path_of(alloc, command, install)?)?;
    Ok(found)
}
