//! What an archive offers, and the look-up by name.

ghost use Rattle.std.specs.Prelude.{◌≡◌, ◌+◌, ◌*◌, ◌%◌, ◌^◌, ◌<◌, ◌≤◌, length, map, drop, All, IfOk, Some};

use mo_types::Bytes;

/// A name that the table of contents gives to a member, by the member's number from 1.
#[derive(Debug, Drop, PartialEq, Eq)]
pub struct Offer {
    pub name: Bytes,
    pub member: u32,
}

/// An offer, whose name is some bytes of the archive's strings.
#[derive(Clone, Copy, Debug, PartialEq, Eq)]
pub struct Entry {
    pub at: u32,
    pub size: u32,
    pub member: u32,
}
