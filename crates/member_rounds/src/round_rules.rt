//! What decides which files the rounds of a link load.
ghost use Rattle.input_files.specs.Sources.{AreInOrder, in_order_prop};

use crate::offer_index::OfferIndex;
use lib_bind::Libraries;
use mo_types::NameList;

/// What decides which files the rounds of a link load: its inputs, whose positions rise, with what their archives offer, the
/// libraries, which provide names before later archives do, and the names that the command line wants.
#[derive(Drop)]
pub(crate) struct RoundRules<'a, 'b, 'c> {
    pub(crate) offers: OfferIndex<'a>,
    pub(crate) libs: &'b Libraries,
    pub(crate) wanted: &'c NameList,
    ghost order: { AreInOrder offers } by { in_order_prop offers },
}
