//! What the objects of a large input from a number mean to the one who reads them: laws alone, and no code.
//!
//! `link_gen` makes such an object and doesn't stand on the reader of objects; here the definitions of both meet. The
//! bytes that are made are an object by the facts that `mo_obj` has for its answer (`IsObject`: each part is what its
//! header or entry says, no rule fails at any place, no feature is missing, and there are few symbols). It is the
//! stated one (`specs/Object.antt`: one section with its calls, and the symbols), it is what `mo_obj` reads, and the
//! relocation of each call names the symbol that is called (`made_bytes_are_an_object`).
//!
//! Each name that is called is defined by an object of the same input (`calls_are_met`), and a function by one object
//! alone, at one offset (`functions_are_defined_once`; `specs/Input.antt`). A definition of the bytes with a field, a
//! size or an offset out of order would have a fault or be another object.
#![tactic(auto)]

mod laws;

pub use laws::{calls_are_met, functions_are_defined_once, made_bytes_are_an_object};
