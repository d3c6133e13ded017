//! What the definitions mean, each on a call that does nothing.
ghost use Rattle.std.specs.Prelude.{◌≡◌, ◌≢◌, List, Contains, Some};
ghost use Rattle.std.specs.List.{AllPairs};
ghost use Rattle.std.specs.List.Sorted.{IsStrictlySortedBy};
ghost use Rattle.std.specs.Ordering.{on};
ghost use Rattle.mo_types.specs.declared.atom.Atom.{Atom};
ghost use Rattle.mo_types.specs.Keys.{compare_keys};
ghost use Rattle.mo_types.specs.declared.key.AtomKey.{AtomKey};
ghost use Rattle.mo_types.specs.declared.loaded.LoadedFile.{LoadedFile};
ghost use Rattle.mo_types.specs.declared.out_section.OutSection.{OutSection};
ghost use Rattle.tlv_plan.specs.Template.{keys_of};
ghost use Rattle.sect_list.specs.OutSections.{Home, home_of, out_sections};

/// Each atom of which the files have the section, or of a common symbol, is in a section of the image.
pub fn each_kept_atom_is_listed()
    ensures { (files : List LoadedFile) (kept : List Atom) (atom : Atom) (home : Home) → Contains kept atom
        → Some home ≡ home_of files atom.key.file atom.key.section → Contains (keys_of (out_sections files kept)) atom.key }
{}

/// No atom is in two sections of the image, nor twice in one, where the kept atoms rise.
pub fn no_atom_is_listed_twice()
    ensures { (files : List LoadedFile) (kept : List Atom) → IsStrictlySortedBy (on (λ (atom : Atom). atom.key) compare_keys) kept
        → AllPairs (λ (a : AtomKey) (b : AtomKey). a ≢ b) (keys_of (out_sections files kept)) }
{}
