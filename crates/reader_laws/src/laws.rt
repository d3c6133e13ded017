//! What readers give, each on a call that does nothing.
ghost use Rattle.std.specs.Prelude.{◌≡◌, ◌≤◌, ℕ, List, All, Some, Ok};
ghost use Rattle.command_line.specs.declared.command.Command.{Command};
ghost use Rattle.lib_bind.specs.Graph.{IsWhole};
ghost use Rattle.lib_bind.specs.Provides.{provider_of};
ghost use Rattle.lib_bind.specs.declared.library.LibraryGraph.{LibraryGraph};
ghost use Rattle.lib_bind.specs.declared.provider.Provider.{Provider};
ghost use Rattle.mo_cmd.specs.Command.{command_by};
ghost use Rattle.mo_cmd.specs.declared.parts.Rows.{Rows};
ghost use Rattle.mo_obj.specs.Object.{object_of};
ghost use Rattle.mo_types.specs.declared.object.Object.{Object};
ghost use Rattle.reader_laws.specs.Facts.{HasNoNul, IsLowCommon};

/// No symbol's name holds a NUL in an object that is read.
#[tactic(auto, using(crate::proofs::Names::no_nul_in_names))]
pub fn names_hold_no_nul()
    ensures { (bytes : List ℕ) (object : Object) → object_of bytes ≡ Ok object → All (λ symbol. HasNoNul symbol.name) object.symbols }
{}

/// No common symbol is aligned to more than a page in an object that is read.
#[tactic(auto, using(crate::proofs::Commons::low_commons))]
pub fn commons_are_low()
    ensures { (bytes : List ℕ) (object : Object) → object_of bytes ≡ Ok object → All (λ symbol. IsLowCommon symbol.kind) object.symbols }
{}

/// The name of the entry holds no NUL in a command that is read, by whatever rows of the table of options.
#[tactic(auto, using(crate::proofs::Entries::no_nul_in_entry))]
pub fn entries_hold_no_nul()
    ensures { (rows : Rows) (words : List (List ℕ)) (command : Command) → command_by rows words ≡ Ok command → HasNoNul command.entry }
{}

/// The ordinal of a library that provides a name is 240 at most, where the libraries are whole.
#[tactic(auto, using(crate::proofs::Ordinals::few_ordinals))]
pub fn ordinals_are_few()
    ensures { (graph : LibraryGraph) (name : List ℕ) (provider : Provider)
        → IsWhole graph → provider_of graph name ≡ Some provider → provider.ordinal ≤ 240 }
{}
