//! What the definitions mean, each on a call that does nothing.
ghost use Rattle.std.specs.Prelude.{◌≡◌, ◌≢◌, ℕ, ◌+◌, ◌*◌, ◌^◌, ◌≤◌, List, ◌∷◌, All, slice_get, Some};
ghost use Rattle.std.specs.List.{AllPairs};
ghost use Rattle.mo_bytes.specs.Rounding.{IsLeastMultiple};
ghost use Rattle.mo_types.specs.declared.atom.Atom.{Atom};
ghost use Rattle.mo_types.specs.declared.out_section.OutSection.{OutSection};
ghost use Rattle.mo_types.specs.declared.key.AtomKey.{AtomKey};
ghost use Rattle.tlv_plan.specs.Template.{HasOffset, aligned, greatest_align, keys_of, offsets, template_stand, template_size, thread_local};

/// Each atom's offset is a multiple of its alignment.
#[tactic(auto, using(crate::proofs::Meaning::are_aligned))]
pub fn offsets_are_aligned()
    ensures { (kept : List Atom) (sections : List OutSection)
        → All (λ (p : Atom × ℕ). (count : ℕ) × (p.1 ≡ count * 2 ^ p.0.align)) (template_stand kept sections) }
{}

/// Each atom ends where the next one begins or before, and the last one in the template.
#[tactic(auto, using(crate::proofs::Meaning::places))]
pub fn atoms_stand_apart()
    ensures apart { (kept : List Atom) (sections : List OutSection)
        → AllPairs (λ (p : Atom × ℕ) (q : Atom × ℕ). p.1 + p.0.size ≤ q.1) (template_stand kept sections) }
    ensures within { (kept : List Atom) (sections : List OutSection)
        → All (λ (p : Atom × ℕ). p.1 + p.0.size ≤ template_size kept sections) (template_stand kept sections) }
{}

/// The place of an atom or of a section is the least multiple of its alignment that isn't below what comes before.
#[tactic(auto, using(crate::proofs::Walk::aligned_least))]
pub fn places_are_least()
    ensures { (align at : ℕ) → IsLeastMultiple (2 ^ align) at (aligned align at) }
{}

/// The template's alignment is the greatest among its sections: none has a greater one, and one has it, if there are
/// sections.
#[tactic(auto, using(crate::proofs::Greatest::greatest))]
pub fn the_greatest_alignment_counts()
    ensures bound { (sections : List OutSection) → All (λ (section : OutSection). section.align ≤ greatest_align sections) sections }
    ensures one { (first : OutSection) (rest : List OutSection) → (k : ℕ) × (section : OutSection)
        × (slice_get (first ∷ rest) k ≡ Some section) × (section.align ≡ greatest_align (first ∷ rest)) }
{}

/// An atom has one offset, where the thread-local sections list no atom twice: what determines the template determines
/// each offset in it.
pub fn offsets_are_one()
    ensures { (kept : List Atom) (sections : List OutSection) → AllPairs (λ a b. a ≢ b) (keys_of (thread_local sections))
        → (atom : AtomKey) (a b : ℕ) → HasOffset (offsets (template_stand kept sections)) atom a
        → HasOffset (offsets (template_stand kept sections)) atom b → a ≡ b }
{}
