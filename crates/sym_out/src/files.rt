//! Loaded files and the symbols in them.
ghost use Rattle.std.specs.Prelude.{◌≡◌, ◌<◌};
ghost use Rattle.std.specs.List.{AllPairs};
ghost use Rattle.std.specs.Option.{option_copied};
ghost use Rattle.mo_types.specs.Loaded.{IsBefore};
ghost use Rattle.mo_types.specs.declared.loaded.LoadedFile.{LoadedFile as Loads};
ghost use Rattle.symbol_winners.specs.Winners.{is_own};
ghost use Rattle.sym_out.specs.Files as spec;

use mo_types::{FileId, LoadedFile};

/// Whether a name is one that an assembler or a compiler gives for its own use.
pub(crate) fn is_own(name: &[u8]) -> bool
    ensures { result ≡ is_own name.now }
{
    name.starts_with(b"l") || name.starts_with(b"L")
}

/// The file of an id, or `None` exactly where there is none.
#[tactic(auto, unfolding(crate::specs::Files::file_of))]
pub(crate) fn file_of(files: &[LoadedFile], id: FileId) -> Option<&LoadedFile>
    requires { AllPairs (λ (a : Loads) (b : Loads). IsBefore a.id b.id) files.now }
    ensures { option_copied result ≡ spec.file_of files.now id }
{
    match files.binary_search_by(|file| file.id.cmp(&id)) {
        Ok(at) => Some(&files[at]),
        Err(_) => None,
    }
}

/// How many symbols files have together.
pub(crate) fn symbol_count(files: &[LoadedFile]) -> usize {
    let mut count = 0usize;
    for file in files {
        count = count.saturating_add(file.object.symbols.len());
    }
    count
}

/// What the file of an id is called.
#[tactic(auto, unfolding(crate::specs::Files::label_of))]
pub(crate) fn label_of(files: &[LoadedFile], id: FileId) -> &[u8]
    requires { AllPairs (λ (a : Loads) (b : Loads). IsBefore a.id b.id) files.now }
    ensures { result.now ≡ spec.label_of files.now id }
{
    match file_of(files, id) {
        Some(file) => file.label.as_slice(),
        None => b"".as_slice(),
    }
}
