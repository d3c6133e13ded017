ghost use Rattle.std.specs.Prelude.{All};
ghost use Rattle.std.proofs.Props.{props};
ghost use Rattle.mo_ar.specs.inner.Index.{IsEntry};

use crate::offers::Entry;

/// Entries that are offered, and those by whose names their buckets are told, in order, or none. All their names are parts
/// of the strings.
#[derive(Clone, Copy)]
pub struct Offered<'a> {
    pub strings: &'a [u8],
    pub order: &'a [Entry],
    pub entries: &'a [Entry],
    ghost entries_are: { All (IsEntry strings.now) entries.now } by { Prim.hlevel props },
    ghost order_is: { All (IsEntry strings.now) order.now } by { Prim.hlevel props },
}
