//! The template of thread-local variables, and what holds offsets in it.
ghost use Rattle.std.specs.Prelude.{◌≡◌, ◌<◌, ◌^◌};
ghost use Rattle.std.specs.List.{find};
ghost use Rattle.std.specs.List.Sorted.{IsStrictlySortedBy};
ghost use Rattle.std.specs.Option.{option_copied};
ghost use Rattle.std.specs.Ordering.{is_eq, on};
ghost use Rattle.mo_types.specs.Keys.{compare_files, compare_keys};
ghost use Rattle.mo_types.specs.declared.loaded.LoadedFile.{LoadedFile as Loads};
ghost use Rattle.ref_meet.specs.Near.{IsNear};
ghost use Rattle.ref_meet.specs.Ready.{IsSound, scene_of};
ghost use Rattle.ref_meet.specs.Scene as scenes;
ghost use Rattle.ref_meet.specs.Template as spec;
ghost use Rattle.tlv_plan.specs.Template.{is_thread_local};

use crate::addresses::address_of;
use crate::scene::Scene;
use mo_format::loader::{
    S_THREAD_LOCAL_REGULAR, S_THREAD_LOCAL_VARIABLES, S_THREAD_LOCAL_ZEROFILL,
};
use mo_types::{AtomKey, FileId, Goal, LoadedFile, compare_atoms};
use sect_place::PlacedSection;
use std::cmp::Ordering;
use tlv_plan::is_thread_local;

// The first place of a file.
fn start_of(file: FileId) -> AtomKey
    ensures { result ≡ record { file = file; section = 0; offset = 0 } }
{
    AtomKey {
        file,
        section: 0,
        offset: 0,
    }
}

// The order of a file and an id.
fn compare_to(file: &LoadedFile, id: FileId) -> Ordering
    ensures { result ≡ compare_keys (record { file = file.now.id; section = 0; offset = 0 }) (record { file = id; section = 0; offset = 0 }) }
{
    compare_atoms(&start_of(file.id), &start_of(id))
}

// The file with an id.
fn file_of(files: &[LoadedFile], id: FileId) -> Option<&LoadedFile>
    requires { IsStrictlySortedBy (on (λ (file : Loads). file.id) compare_files) files.now }
    ensures { option_copied result ≡ find (λ file. is_eq (compare_files file.id id)) files.now }
{
    match files.binary_search_by(|file| compare_to(file, id)) {
        Ok(at) => Some(&files[at]),
        Err(_) => None,
    }
}

// The type of the section of a number.
fn kind_in(file: &LoadedFile, section: u16) -> u32
    ensures { result ≡ scenes.kind_in file.now section }
{
    match file.object.section(u32::from(section)) {
        Some(section) => u32::from(section.kind),
        None => 0,
    }
}

fn is_template_kind(kind: u32) -> bool
    ensures { result ≡ spec.is_template_kind kind }
{
    kind == S_THREAD_LOCAL_REGULAR || kind == S_THREAD_LOCAL_ZEROFILL
}

// Whether an atom is one of the template's.
#[tactic(auto, unfolding(crate::specs::Template::in_template))]
fn in_template(files: &[LoadedFile], atom: AtomKey) -> bool
    requires { IsStrictlySortedBy (on (λ (file : Loads). file.id) compare_files) files.now }
    ensures { result ≡ spec.in_template files.now atom }
{
    match file_of(files, atom.file) {
        Some(file) => is_template_kind(kind_in(file, atom.section)),
        None => false,
    }
}

/// Whether a goal is in an atom of the template.
pub(crate) fn leads_to_template(files: &[LoadedFile], goal: &Goal) -> bool
    requires { IsStrictlySortedBy (on (λ (file : Loads). file.id) compare_files) files.now }
    ensures { result ≡ spec.leads_to_template files.now goal.now }
{
    match goal {
        Goal::Def(atom, _) => in_template(files, *atom),
        Goal::WeakSelf(_, atom, _) => in_template(files, *atom),
        Goal::Header | Goal::Import { .. } | Goal::Flat(_) | Goal::Nobody => false,
    }
}

/// Whether a section holds descriptors of thread-local variables.
pub(crate) fn has_descriptors(file: &LoadedFile, section: u16) -> bool
    ensures { result ≡ spec.has_descriptors file.now section }
{
    kind_in(file, section) == S_THREAD_LOCAL_VARIABLES
}

// The first section of the template.
fn first_of(sections: &[PlacedSection]) -> Option<&PlacedSection>
    ensures { option_copied result ≡ find (λ placed. is_thread_local placed.section) sections.now }
{
    sections
        .iter()
        .find(|placed| is_thread_local(&placed.section))
}

/// Where the template begins.
#[tactic(auto, unfolding(crate::specs::Template::template_start))]
pub(crate) fn template_start(sections: &[PlacedSection]) -> Option<u64>
    ensures { result ≡ spec.template_start sections.now }
{
    let first = first_of(sections)?;
    Some(first.address)
}

// The offset of a place in an atom from the start of the template.
fn offset_from(scene: &Scene, template: Option<u64>, atom: AtomKey, offset: u64) -> Option<u64>
    requires sound { IsSound (scene_of scene.now) }
    requires template { template ≡ spec.template_start scene.now.layout.now.sections }
    requires near { offset < 2 ^ 63 }
    ensures { result ≡ spec.offset_from (scene_of scene.now) atom offset }
{
    let start = template?;
    let at = address_of(scene.layout, atom)?;
    Some(at.saturating_sub(start) + offset)
}

/// The offset of a goal in the template, which begins at `template`.
#[tactic(auto, unfolding(crate::specs::Template::template_offset))]
pub(crate) fn template_offset(scene: &Scene, template: Option<u64>, goal: &Goal) -> Option<u64>
    requires sound { IsSound (scene_of scene.now) }
    requires template { template ≡ spec.template_start scene.now.layout.now.sections }
    requires near { IsNear goal.now }
    ensures { result ≡ spec.template_offset (scene_of scene.now) goal.now }
{
    match goal {
        Goal::Def(atom, offset) => offset_from(scene, template, *atom, *offset),
        Goal::WeakSelf(_, atom, offset) => offset_from(scene, template, *atom, *offset),
        Goal::Header | Goal::Import { .. } | Goal::Flat(_) | Goal::Nobody => None,
    }
}
