//! Where the atoms of a section go.
ghost use Rattle.std.specs.Prelude.{◌≡◌, IsTrue};
ghost use Rattle.std.specs.List.{find};
ghost use Rattle.std.specs.List.Sorted.{IsStrictlySortedBy};
ghost use Rattle.std.specs.Option.{option_copied, option_map};
ghost use Rattle.std.specs.Ordering.{on, is_eq};
ghost use Rattle.mo_types.specs.Keys.{compare_files, compare_keys};
ghost use Rattle.mo_types.specs.declared.loaded.LoadedFile.{LoadedFile};
ghost use Rattle.sect_list.specs.OutSections as spec;
ghost use Rattle.sect_list.specs.inner.Gathered.{held_home};

use mo_format::loader::{S_ATTR_PURE_INSTRUCTIONS, S_ATTR_SOME_INSTRUCTIONS, S_ZEROFILL};
use mo_types::{AtomKey, COMMON_SECTION, FileId, LoadedFile, Section, compare_atoms};
use std::cmp::Ordering;

/// The section of the image to which atoms go, and the attributes that they bring there.
#[derive(Clone, Copy)]
pub(crate) struct Home<'a> {
    pub segment: &'a [u8],
    pub name: &'a [u8],
    pub kind: u8,
    pub attributes: u32,
}

// The home of common symbols: `__DATA,__common`.
pub(crate) fn common_home() -> Home<'static>
    ensures { held_home result ≡ spec.common_home }
{
    Home {
        segment: b"__DATA".as_slice(),
        name: b"__common".as_slice(),
        kind: S_ZEROFILL as u8,
        attributes: 0,
    }
}

// The home of the atoms of a section.
#[tactic(auto, unfolding(crate::specs::OutSections::home_in))]
fn home_in(section: &Section) -> Home
    ensures { held_home result ≡ spec.home_in section.now }
{
    Home {
        segment: section.destination_segment(),
        name: section.destination_name(),
        kind: section.destination_kind(),
        attributes: section.attributes & (S_ATTR_PURE_INSTRUCTIONS | S_ATTR_SOME_INSTRUCTIONS),
    }
}

// The first place of a file.
fn start_of(file: FileId) -> AtomKey
    ensures { result ≡ record { file = file; section = 0; offset = 0 } }
{
    AtomKey {
        file,
        section: 0,
        offset: 0,
    }
}

// The order of a file and an id.
fn compare_to(file: &LoadedFile, id: FileId) -> Ordering
    ensures { result ≡ compare_keys (record { file = file.now.id; section = 0; offset = 0 }) (record { file = id; section = 0; offset = 0 }) }
{
    compare_atoms(&start_of(file.id), &start_of(id))
}

// The file with an id.
fn file_of(files: &[LoadedFile], id: FileId) -> Option<&LoadedFile>
    requires { IsStrictlySortedBy (on (λ (file : LoadedFile). file.id) compare_files) files.now }
    ensures { option_copied result ≡ find (λ file. is_eq (compare_files file.id id)) files.now }
{
    match files.binary_search_by(|file| compare_to(file, id)) {
        Ok(at) => Some(&files[at]),
        Err(_) => None,
    }
}

// The home of the atoms of a section of a file.
#[tactic(auto, using(crate::proofs::Homes::homes))]
fn home_of<'a>(files: &'a [LoadedFile], key: &AtomKey) -> Option<Home<'a>>
    requires { IsStrictlySortedBy (on (λ (file : LoadedFile). file.id) compare_files) files.now }
    ensures { option_map held_home result ≡ spec.home_of files.now key.now.file key.now.section }
{
    if key.section == COMMON_SECTION {
        return Some(common_home());
    }
    let file = file_of(files, key.file)?;
    let section = file.object.section(u32::from(key.section))?;
    Some(home_in(section))
}

// Whether two atoms are of one section.
fn is_beside(a: &AtomKey, b: &AtomKey) -> bool
    ensures file { IsTrue result → b.now.file ≡ a.now.file }
    ensures section { IsTrue result → b.now.section ≡ a.now.section }
{
    a.file == b.file && a.section == b.section
}

// An atom's home, where that of the atom before it is known.
pub(crate) fn next_home<'a>(
    files: &'a [LoadedFile],
    last: &AtomKey,
    home: Option<Home<'a>>,
    key: &AtomKey,
) -> Option<Home<'a>>
    requires rising { IsStrictlySortedBy (on (λ (file : LoadedFile). file.id) compare_files) files.now }
    requires known { option_map held_home home ≡ spec.home_of files.now last.now.file last.now.section }
    ensures { option_map held_home result ≡ spec.home_of files.now key.now.file key.now.section }
{
    if is_beside(last, key) {
        home
    } else {
        home_of(files, key)
    }
}
