//! The image: its parts at their places, the atoms with their fields, and the UUID with the signature.
//!
//! `join` puts the parts that are whole before the atoms are placed: each byte of the image is that of the part that
//! covers it, or 0 (`specs/Joined.antt`), and an image in which each part stands at its place with zeros elsewhere is
//! that one and no other (`parts_are_one_image`).
//!
//! `fill` writes the atoms with their fields, as `patch_range` does over the whole image, in as many pieces as there
//! are workers. Images that are filled with the same atoms are one (`filled_images_are_one`), and where a value
//! doesn't fit there is none, and one fault, that of the least key (`filled_or_not`).
//!
//! `seal` comes last, over the bytes that then stand there: the UUID, and the signature of what the image has with it
//! (`specs/Sealed.antt`), which a check finds good. It leaves all other bytes. So pages that are hashed before the
//! UUID or an atom is written, a piece that is left out, and the fault of another key aren't proved.
#![tactic(auto)]

mod filling;
mod joining;
mod laws;
mod parts;
mod sealing;
mod worker_range;

pub use filling::{PlacedAtoms, fill};
pub use joining::join;
pub use laws::{filled_images_are_one, filled_or_not, parts_are_one_image};
pub use parts::{Part, PartList, Parts, Seal};
pub use sealing::seal;
