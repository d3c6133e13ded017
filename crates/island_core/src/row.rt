//! What is to know of a branch to tell whether it takes an island.

/// A group of atoms, and a target to which a branch of the group goes, by their numbers.
#[derive(Clone, Copy, Debug, PartialEq, Eq, PartialOrd, Ord)]
pub struct Pair {
    pub group: usize,
    pub target: usize,
}

/// What a branch is and where it goes.
#[derive(Clone, Copy, Debug, PartialEq, Eq)]
pub enum Case {
    /// It stands in no group.
    Outside,
    /// Its target isn't in `__TEXT`.
    Away,
    /// Its target is in `__TEXT`, and has no addend.
    Plain,
    /// Its target is in `__TEXT`, and has an addend.
    Added,
}

/// A branch, by numbers.
#[derive(Clone, Copy, Debug, PartialEq, Eq)]
pub struct Row {
    pub case: Case,
    /// The branch's group and its target.
    pub pair: Pair,
    /// Where it stands without islands.
    pub from: u128,
    /// Where its target stands without islands.
    pub to: u128,
    /// How many groups are before the target.
    pub zone: usize,
}

/// How far branches reach, and what islands take.
#[derive(Clone, Copy, Debug, PartialEq, Eq)]
pub struct Scale {
    /// Areas are multiples of 2 to this power.
    pub unit: u8,
    /// How many groups there are.
    pub groups: usize,
    /// In bytes.
    pub reach: u128,
    /// In bytes: as far as islands can move anything.
    pub slack: u128,
}
