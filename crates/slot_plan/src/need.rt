use mo_types::{Goal, Items};

/// How a reference needs its goal.
#[derive(Clone, Copy, Debug, PartialEq, Eq)]
pub enum Way {
    /// By a slot of the global offset table: what loads or points to one, and a personality function.
    Got,
    /// By a stub: a branch to what another image has.
    Stub,
    /// By a slot for thread-local variables.
    Tlv,
}

/// One need of a goal.
#[derive(Debug, Drop)]
pub struct Need {
    pub goal: Goal,
    pub way: Way,
}

/// Needs in any order; a goal may be needed often and in several ways.
pub type NeedList = Items<Need>;
