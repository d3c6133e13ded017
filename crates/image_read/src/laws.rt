//! What the definitions mean, each on a call that does nothing.
ghost use Rattle.std.specs.Prelude.{◌≡◌, ◌≢◌, ℕ, true, false, codes, pos, negsuc, List, Option, Some, None, Ok, Err};
ghost use Rattle.std.specs.List.{All};
ghost use Rattle.mo_format.specs.declared.loader.TheConstants.{LC_DYLD_CHAINED_FIXUPS};
ghost use Rattle.mo_types.specs.declared.goal.Goal.TheVariants.{Def, WeakSelf, Header, Import, Flat};
ghost use Rattle.mo_types.specs.declared.key.AtomKey.{AtomKey};
ghost use Rattle.mo_types.specs.declared.reference.RefKind.{RefKind};
ghost use Rattle.mo_types.specs.declared.reference.RefKind.TheVariants.{Pointer, Diff32, Diff64, Branch, Page, PageOff};
ghost use Rattle.mo_types.specs.declared.reference.RefKind.TheVariants.{GotPage, GotPageOff, GotDelta, GotPointer, TlvPage, TlvPageOff};
ghost use Rattle.image_read.specs.Alike.{AreAlike};
ghost use Rattle.image_read.specs.Chain.{IsGap, OnChain};
ghost use Rattle.image_read.specs.Commands.{cmd, commands_of};
ghost use Rattle.image_read.specs.Denotes.{DenotesBy, Places};
ghost use Rattle.image_read.specs.Example.{example, imported};
ghost use Rattle.image_read.specs.Fixups.{fixup_at, held_on, pointer_at};
ghost use Rattle.image_read.specs.Held.{in_atom};
ghost use Rattle.image_read.specs.Meaning.{denote};
ghost use Rattle.image_read.specs.declared.fixups.FixupRead.{FixupRead};
ghost use Rattle.image_read.specs.declared.fixups.FixupRead.TheVariants.{Plain};

/// Two images that differ only in bytes that aren't in memory, nor in the tables of fixups, are read alike. A law, which
/// does nothing.
#[tactic(auto, using(crate::proofs::AlikeLemmas::alikes))]
pub fn nothing_else_is_read()
    ensures fixups { (a b : List ℕ) (address : ℕ) → AreAlike a b → fixup_at a address ≡ fixup_at b address }
    ensures fields { (a b : List ℕ) (address : ℕ) (kind : RefKind) → AreAlike a b → denote a address kind ≡ denote b address kind }
{}

/// The loader leaves all of an image as it is that has no command of fixups. A law, which does nothing.
#[tactic(auto, using(crate::proofs::PlainLemmas::plains))]
pub fn without_fixups_all_is_plain()
    ensures { (image : List ℕ) (address : ℕ) → All (λ at. cmd image at ≢ LC_DYLD_CHAINED_FIXUPS) (commands_of image) → fixup_at image address ≡ Plain }
{}

/// What the walk finds at a place of a page: the pointer there where the page's chain goes through the place, and nothing
/// where it doesn't; every pointer of the chain is whole then. Else the chain has a gap. A law, which does nothing.
#[tactic(auto, using(crate::proofs::ChainLemmas::chains))]
pub fn a_walk_follows_the_chain()
    ensures on { (image : List ℕ) (base start place word : ℕ) → held_on image base start place ≡ Ok (Some word)
        → OnChain image base start place × (pointer_at image base place ≡ Some word) }
    ensures off { (image : List ℕ) (base start place : ℕ) → held_on image base start place ≡ Ok None → OnChain image base start place → ⊥ }
    ensures whole { (image : List ℕ) (base start place : ℕ) (held : Option ℕ) → held_on image base start place ≡ Ok held
        → (at : ℕ) → OnChain image base start at → (word : ℕ) × (pointer_at image base at ≡ Some word) }
    ensures gap { (image : List ℕ) (base start place : ℕ) (answer : FixupRead) → held_on image base start place ≡ Err answer → IsGap image base start }
{}

/// What a field of each kind tells in a small image. A law, which does nothing.
#[tactic(auto, using(crate::proofs::ExampleLemmas::rows))]
pub fn fields_tell_their_goals()
    ensures branch { (places : Places) (key : AtomKey) (offset : ℕ) → in_atom places.addresses key offset ≡ Some 0x4084
        → DenotesBy Branch example places 0x4078 0 (Def key offset) (pos 0) None }
    ensures branch_by_island { (places : Places) (key : AtomKey) (offset : ℕ) → in_atom places.addresses key offset ≡ Some 0x4084
        → DenotesBy Branch example places 0x4080 0 (Def key offset) (pos 0) None }
    ensures branch_by_stub { (places : Places) → DenotesBy Branch example places 0x407c 0 imported (pos 0) None }
    ensures page { (places : Places) (key : AtomKey) (offset : ℕ) → in_atom places.addresses key offset ≡ Some 0x40b0
        → DenotesBy Page example places 0x4084 0 (Def key offset) (pos 8) None }
    ensures page_offset { (places : Places) (key : AtomKey) (offset : ℕ) → in_atom places.addresses key offset ≡ Some 0x40b0
        → DenotesBy PageOff example places 0x4088 0 (WeakSelf (codes "_h") key offset) (pos 8) None }
    ensures page_offset_below_zero { (places : Places) (key : AtomKey) (offset : ℕ) → in_atom places.addresses key offset ≡ Some 0x40b0
        → DenotesBy PageOff example places 0x4088 0 (Def key offset) (negsuc 0x4ff7) None }
    ensures slot_page { (places : Places) → DenotesBy GotPage example places 0x408c 0 imported (pos 0) None }
    ensures variable_page { (places : Places) → DenotesBy TlvPage example places 0x408c 0 imported (pos 0) None }
    ensures slot_offset { (places : Places) → DenotesBy GotPageOff example places 0x4090 0 imported (pos 0) None }
    ensures variable_offset { (places : Places) → DenotesBy TlvPageOff example places 0x4090 0 imported (pos 0) None }
    ensures slot_delta { (places : Places) → DenotesBy GotDelta example places 0x40e8 0 imported (pos 0) None }
    ensures slot_address { (places : Places) → DenotesBy GotPointer example places 0x40c0 0 imported (pos 0) None }
    ensures difference { (places : Places) (key : AtomKey) (offset : ℕ) → in_atom places.addresses key offset ≡ Some 0x4084
        → DenotesBy Diff32 example places 0x40ac 0 Header (pos 0x80) (Some (Def key offset)) }
    ensures long_difference { (places : Places) (key : AtomKey) (offset : ℕ) → in_atom places.addresses key offset ≡ Some 0x40b8
        → DenotesBy Diff64 example places 0x40d8 0 Header (pos 0x84) (Some (Def key offset)) }
    ensures pointer { (places : Places) (key : AtomKey) (offset : ℕ) → in_atom places.addresses key offset ≡ Some 0x4080
        → DenotesBy Pointer example places 0x40b8 0 (Def key offset) (pos 4) None }
    ensures pointer_to_header { (places : Places) → DenotesBy Pointer example places 0x40b8 0 Header (pos 0x84) None }
    ensures pointer_to_import { (places : Places) → DenotesBy Pointer example places 0x40b0 0 imported (pos 0) None }
    ensures pointer_by_flat_lookup { (places : Places) → DenotesBy Pointer example places 0x40c8 0 (Flat (codes "_g")) (pos 5) None }
    ensures pointer_by_weak_lookup { (places : Places) → DenotesBy Pointer example places 0x40d0 0 (Import (codes "_h") 1 true false) (pos 0) None }
    ensures pointer_to_own_weak { (places : Places) (key : AtomKey) (offset : ℕ) → in_atom places.addresses key offset ≡ Some 0x4084
        → DenotesBy Pointer example places 0x40d0 0 (WeakSelf (codes "_h") key offset) (pos 0) None }
    ensures offset_in_template { (places : Places) (key : AtomKey) (offset : ℕ) → in_atom places.offsets key offset ≡ Some 0x10
        → DenotesBy Pointer example places 0x40e0 0x13 (Def key offset) (pos 8) None }
{}
