//! What the representatives of literals mean, each on a call that does nothing.
ghost use Rattle.std.specs.Prelude.{◌≡◌, List, Contains, true};
ghost use Rattle.mo_types.specs.Loaded.{IsWholeLoaded};
ghost use Rattle.mo_types.specs.declared.loaded.Loaded.{Loaded};
ghost use Rattle.literal_merge.specs.Representatives.{IsRepresentative, Literal, is_same, literals, representative_of};

/// What stands for a literal is one that is the same, with the least key of all of these.
#[tactic(auto, using(crate::proofs::RepresentativeLemmas::representatives))]
pub fn representatives_have_the_least_keys()
    ensures { (loaded : Loaded) → IsWholeLoaded loaded → (literal : Literal) → Contains (literals loaded.files) literal
        → IsRepresentative (literals loaded.files) literal (representative_of (literals loaded.files) literal).representative }
{}

/// Literals that are the same have one representative, which so stands for itself.
#[tactic(auto, using(crate::proofs::RepresentativeLemmas::representatives))]
pub fn the_same_literals_have_one_representative()
    ensures { (all : List Literal) (a b : Literal) → is_same a b ≡ true → Contains all a → Contains all b
        → (representative_of all a).representative ≡ (representative_of all b).representative }
{}
