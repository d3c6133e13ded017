//! What messages call files.
ghost use Rattle.std.specs.Prelude.{◌≡◌, IfOk};
ghost use Rattle.std.specs.List.{find};
ghost use Rattle.std.specs.Option.{option_copied};
ghost use Rattle.std.specs.Ordering.{is_eq};
ghost use Rattle.mo_types.specs.Keys.{compare_files};
ghost use Rattle.link_files.specs.Names as spec;

use mo_types::{Bytes, FileId, LoadedFile, OutOfMemory};

fn is_of(file: &LoadedFile, id: FileId) -> bool
    ensures { result ≡ is_eq (compare_files file.now.id id) }
{
    file.id.cmp(&id).is_eq()
}

fn file_of(files: &[LoadedFile], id: FileId) -> Option<&LoadedFile>
    ensures { option_copied result ≡ find (λ file. is_eq (compare_files file.id id)) files.now }
{
    files.iter().find(|file| is_of(file, id))
}

/// What messages call the file of an id, or nothing where there is no such file.
#[tactic(auto, unfolding(crate::specs::Names::label_of))]
pub(crate) fn label_of(files: &[LoadedFile], id: FileId) -> Result<Bytes, OutOfMemory>
    ensures { IfOk result (λ label. label ≡ spec.label_of files.now id) }
{
    match file_of(files, id) {
        Some(file) => Ok(file.label.clone()?),
        None => Ok(Bytes::new()),
    }
}
