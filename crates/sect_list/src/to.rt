ghost use Rattle.std.specs.Prelude.{◌≡◌};
ghost use Rattle.sect_list.specs.inner.Gathered.{held_home};

use crate::home::Home;
use std::hash::{Hash, Hasher};
use std::marker::Model;

/// A section of the image, by its segment, name and type.
#[derive(Drop)]
pub(crate) struct To<'a> {
    segment: &'a [u8],
    name: &'a [u8],
    kind: u8,
}

impl<'a> Model for To<'a> {
    ghost use Rattle.mo_types.specs.Destination.{Destination};

    ghost Value = { Destination };

    ghost view = { λ to. record { segment = to.segment.now; name = to.name.now; kind = to.kind } };
}

impl<'a> To<'a> {
    // The section to which a home leads.
    pub(crate) fn new(home: &Home<'a>) -> To<'a>
        ensures { result ≡ (held_home home.now).to }
    {
        To {
            segment: home.segment,
            name: home.name,
            kind: home.kind,
        }
    }
}

impl<'a> PartialEq for To<'a> {
    ghost use Rattle.std.specs.Cmp.{partial_equiv_from_equiv};
    ghost use Rattle.sect_list.specs.OutSections.{same_destination};
    ghost use Rattle.sect_list.specs.inner.Destinations.{destinations_equal};

    ghost eq = { same_destination };

    ghost laws = { partial_equiv_from_equiv destinations_equal };

    fn eq(&self, other: &Self) -> bool {
        self.segment == other.segment && self.name == other.name && self.kind == other.kind
    }
}

impl<'a> Eq for To<'a> {
    ghost use Rattle.sect_list.specs.inner.Destinations.{destinations_equal};

    ghost laws = { destinations_equal };
}

// Few sections have one name and different segments or types.
impl<'a> Hash for To<'a> {
    ghost use Rattle.std.specs.Hash as fed;
    ghost use Rattle.sect_list.specs.inner.Destinations.{destinations_feed};

    ghost hash_input = { λ to. fed.slice fed.u8 to.name };

    ghost respects_eq = { destinations_feed };

    fn hash<H: Hasher>(&self, state: &mut H) {
        self.name.hash(state);
    }
}
