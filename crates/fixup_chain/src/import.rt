ghost use Rattle.std.specs.Prelude.{◌≡◌, false, refl};
ghost use Rattle.std.specs.Cmp.{partial_equiv_from_equiv};
ghost use Rattle.std.specs.Ordering.{as_partial_cmp, eq_by_cmp};
ghost use Rattle.fixup_chain.specs.ImportOrder.{compare_imports, compare_imports_total, compare_imports_equal, compare_imports_partial};
ghost use Rattle.fixup_chain.specs.Imports.{import_of};
ghost use Rattle.fixup_chain.specs.inner.Rows.{row_at};

use crate::chains::Fixup;
use crate::goals::{optional_of, ordinal_of};
use crate::import_row::ImportRow;
use mo_types::hashed_front;
use std::cmp::Ordering;
use std::hash::{Hash, Hasher};
use std::marker::Model;

/// What a pointer is bound to, in the order of the imports: in the narrow form, without its addend.
#[derive(Drop)]
pub(crate) struct Import<'a> {
    name: &'a [u8],
    ordinal: u16,
    optional: bool,
}

impl<'a> Model for Import<'a> {
    ghost use Rattle.std.specs.Prelude.{pos};
    ghost use Rattle.fixup_chain.specs.ImportOrder as spec;

    ghost Value = { spec.Import };

    ghost view = { λ import. record { name = import.name.now; addend = pos 0; ordinal = import.ordinal; optional = import.optional } };
}

impl<'a> Import<'a> {
    /// What a pointer is bound to.
    #[tactic(auto, unfolding(crate::specs::Imports::import_of))]
    pub(crate) fn of(fixup: &'a Fixup) -> Import<'a>
        ensures { result ≡ import_of false fixup.now }
    {
        Import {
            name: fixup.goal.name(),
            ordinal: ordinal_of(&fixup.goal),
            optional: optional_of(&fixup.goal),
        }
    }

    /// The same import once more.
    pub(crate) fn copy(&self) -> Import<'a>
        ensures { result ≡ self.now }
    {
        Import {
            name: self.name,
            ordinal: self.ordinal,
            optional: self.optional,
        }
    }

    pub(crate) fn name(&self) -> &[u8]
        ensures { result.now ≡ self.now.name }
    {
        self.name
    }

    /// The import by its name's place in the pool.
    pub(crate) fn row(&self, place: usize) -> ImportRow
        ensures { result ≡ row_at place self.now }
    {
        ImportRow {
            name: place,
            addend: 0,
            ordinal: self.ordinal,
            optional: self.optional,
        }
    }
}

impl<'a> PartialEq for Import<'a> {
    ghost eq = { eq_by_cmp compare_imports };

    ghost laws = { partial_equiv_from_equiv compare_imports_equal };

    fn eq(&self, other: &Self) -> bool {
        self.cmp(other) == Ordering::Equal
    }
}

impl<'a> Eq for Import<'a> {
    ghost laws = { compare_imports_equal };
}

impl<'a> PartialOrd for Import<'a> {
    ghost partial_cmp = { as_partial_cmp compare_imports };

    ghost laws = { compare_imports_partial };

    fn partial_cmp(&self, other: &Self) -> Option<Ordering> {
        Some(self.cmp(other))
    }
}

impl<'a> Ord for Import<'a> {
    ghost cmp = { compare_imports };

    ghost total = { compare_imports_total };

    ghost matches_partial_cmp = { λ x y. refl };

    ghost matches_eq = { λ x y. refl };

    #[tactic(auto, unfolding(crate::specs::ImportOrder::compare_imports))]
    fn cmp(&self, other: &Self) -> Ordering {
        match self.name.cmp(other.name) {
            Ordering::Equal => match self.ordinal.cmp(&other.ordinal) {
                Ordering::Equal => self.optional.cmp(&other.optional),
                unequal => unequal,
            },
            unequal => unequal,
        }
    }
}

// Few imports of one name differ, so that a hash of the name is enough.
impl<'a> Hash for Import<'a> {
    ghost use Rattle.std.specs.Prelude.{◌∷◌, ◌++◌, [], length, take};
    ghost use Rattle.std.specs.Hash as fed;
    ghost use Rattle.fixup_chain.specs.inner.Fed.{imports_feed};

    ghost hash_input = { λ import. fed.usize (length import.name) ++ take 1024 import.name ∷ [] };

    ghost respects_eq = { imports_feed };

    fn hash<H: Hasher>(&self, state: &mut H) {
        state.write_usize(self.name.len());
        state.write(hashed_front(self.name));
    }
}
