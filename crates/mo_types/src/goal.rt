ghost use Rattle.std.specs.Prelude.{◌≡◌, ◌↔◌, IsTrue, refl};
ghost use Rattle.std.specs.Cmp.{partial_equiv_from_equiv};
ghost use Rattle.std.specs.Ordering.{as_partial_cmp, eq_by_cmp};
ghost use Rattle.mo_types.specs.Goals as goals;
ghost use Rattle.mo_types.specs.GoalOrder.{compare_goals_total, compare_goals_equal, compare_goals_partial};

use crate::items::Items;
use crate::key::AtomKey;
use crate::string::Bytes;
use std::alloc::AllocError;
use std::cmp::Ordering;

/// What a reference means in the image. Goals are ordered: those with a name by it, then the header, then
/// places in atoms by atom and offset.
#[derive(Debug, Drop)]
pub enum Goal {
    /// A place in an atom of the image, by its offset from the atom's start in bytes.
    Def(AtomKey, u64),
    /// An exported weak definition of the image, which the loader looks up by its name, and its place.
    WeakSelf(Bytes, AtomKey, u64),
    /// The header of the image.
    Header,
    /// A name that a library provides.
    Import {
        name: Bytes,
        /// The library's number in the image, counted from 1.
        ordinal: u8,
        /// Whether the loader looks the name up as a weak definition.
        by_weak: bool,
        /// Whether the name may be missing when the image is loaded.
        optional: bool,
    },
    /// A name that the loader looks for in all images.
    Flat(Bytes),
    /// Nothing has the name.
    Nobody,
}

/// Goals in a stated order.
pub type GoalList = Items<Goal>;

impl Goal {
    /// Where goals of its kind stand among goals: 0 with a name, 1 the header, 2 in an atom, 3 nowhere.
    pub fn group(&self) -> u8
        ensures { result ≡ goals.group_of self.now }
    {
        match self {
            Goal::WeakSelf(_, _, _) | Goal::Import { .. } | Goal::Flat(_) => 0,
            Goal::Header => 1,
            Goal::Def(_, _) => 2,
            Goal::Nobody => 3,
        }
    }

    /// The bytes of its name, or none where it goes by no name.
    pub fn name(&self) -> &[u8]
        ensures { result.now ≡ goals.name_of self.now }
    {
        match self {
            Goal::WeakSelf(name, _, _) | Goal::Import { name, .. } | Goal::Flat(name) => {
                name.as_slice()
            }
            Goal::Def(_, _) | Goal::Header | Goal::Nobody => b"".as_slice(),
        }
    }

    /// Whether two goals are the same one.
    pub fn is_same(&self, other: &Goal) -> bool
        ensures { IsTrue result ↔ (self.now ≡ other.now) }
    {
        self == other
    }

    // What tells goals of one group and one name apart.
    fn numbers(&self) -> [u64; 6]
        ensures { result ≡ goals.numbers_of self.now }
    {
        match self {
            Goal::WeakSelf(_, key, offset) | Goal::Def(key, offset) => [
                0,
                u64::from(key.file.position),
                u64::from(key.file.member),
                u64::from(key.section),
                key.offset,
                *offset,
            ],
            Goal::Import {
                ordinal,
                by_weak,
                optional,
                ..
            } => [
                1,
                u64::from(*ordinal),
                u64::from(*by_weak),
                u64::from(*optional),
                0,
                0,
            ],
            Goal::Flat(_) => [2, 0, 0, 0, 0, 0],
            Goal::Header | Goal::Nobody => [0, 0, 0, 0, 0, 0],
        }
    }
}

impl Clone for Goal {
    ghost is_clone = { λ goal copy. copy ≡ goal };

    fn clone(&self) -> Result<Goal, AllocError> {
        Ok(match self {
            Goal::Def(key, offset) => Goal::Def(*key, *offset),
            Goal::WeakSelf(name, key, offset) => Goal::WeakSelf(name.clone()?, *key, *offset),
            Goal::Header => Goal::Header,
            Goal::Import {
                name,
                ordinal,
                by_weak,
                optional,
            } => Goal::Import {
                name: name.clone()?,
                ordinal: *ordinal,
                by_weak: *by_weak,
                optional: *optional,
            },
            Goal::Flat(name) => Goal::Flat(name.clone()?),
            Goal::Nobody => Goal::Nobody,
        })
    }
}

impl PartialEq for Goal {
    ghost eq = { eq_by_cmp goals.compare_goals };

    ghost laws = { partial_equiv_from_equiv compare_goals_equal };

    fn eq(&self, other: &Self) -> bool {
        self.cmp(other) == Ordering::Equal
    }
}

impl Eq for Goal {
    ghost laws = { compare_goals_equal };
}

impl PartialOrd for Goal {
    ghost partial_cmp = { as_partial_cmp goals.compare_goals };

    ghost laws = { compare_goals_partial };

    fn partial_cmp(&self, other: &Self) -> Option<Ordering> {
        Some(self.cmp(other))
    }
}

impl Ord for Goal {
    ghost cmp = { goals.compare_goals };

    ghost total = { compare_goals_total };

    ghost matches_partial_cmp = { λ x y. refl };

    ghost matches_eq = { λ x y. refl };

    #[tactic(auto, unfolding(crate::specs::Goals::compare_goals))]
    fn cmp(&self, other: &Self) -> Ordering {
        match self.group().cmp(&other.group()) {
            Ordering::Equal => match self.name().cmp(other.name()) {
                Ordering::Equal => self.numbers().cmp(&other.numbers()),
                unequal => unequal,
            },
            unequal => unequal,
        }
    }
}
