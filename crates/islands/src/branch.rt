use mo_types::{AtomKey, Items};
use sect_place::BranchTarget;

/// A branch of an image (`reloc.h`: ARM64_RELOC_BRANCH26).
#[derive(Debug, Drop)]
pub struct Branch {
    /// The atom in which it stands.
    pub atom: AtomKey,
    /// In bytes from the atom's start.
    pub place: u64,
    /// Where it goes.
    pub target: BranchTarget,
}

/// Branches in a stated order.
pub type BranchList = Items<Branch>;
