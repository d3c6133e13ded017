//! What holds of entries. Each function is a law, which its contract states, and does nothing.

ghost use Rattle.std.specs.Prelude.{◌≡◌, ℕ, List, All, Ok, Err};
ghost use Rattle.std.specs.List.{AllPairs};
ghost use Rattle.mo_types.specs.declared.key.FileId.{FileId};
ghost use Rattle.mo_types.specs.declared.object.Object.{Object};
ghost use Rattle.mo_types.specs.declared.unwind.Unwind.{Unwind};
ghost use Rattle.unwind_read.specs.Laws.{AreApart, IsInAtom, IsLeastFault};
ghost use Rattle.unwind_read.specs.Unwinds.{unwinds_of};
ghost use Rattle.unwind_read.specs.declared.fault.UnwindFault.TheVariants.{BadEntry};

/// Each entry of an object stands for a part of one of its atoms that isn't empty and ends where the atom ends, or
/// before.
pub fn entries_lie_in_atoms()
    ensures { (object : Object) (file : FileId) (entries : List Unwind) → unwinds_of object file ≡ Ok entries → All (IsInAtom object file) entries }
{}

/// No two entries of an object have a byte of an atom in common.
pub fn entries_are_apart()
    ensures { (object : Object) (file : FileId) (entries : List Unwind) → unwinds_of object file ≡ Ok entries → AllPairs AreApart entries }
{}

/// An object is refused for the least place of which a part of the rule, or an overlap, is told.
pub fn the_least_fault_is_told()
    ensures { (object : Object) (file : FileId) (place : ℕ) → unwinds_of object file ≡ Err (BadEntry place) → IsLeastFault object place }
{}
