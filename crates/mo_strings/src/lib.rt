//! Strings that end in NUL, and tables of them (`nlist.h`: n_strx; `ranlib.h`: ran_strx).
//!
//! What a string is stands in `specs/Strings.antt`: `first_nul` is the place of the first NUL, and `string_at` the
//! bytes from a place up to the first NUL that follows, without that NUL, or nothing where none follows. The calls of
//! these names, in the module `search`, answer exactly this by a search of the bytes.
//!
//! `Strings`, in the module `table`, is for many strings of one table: its NULs are looked for once, in one pass, when
//! it is made, and contracts see its bytes alone. `size_at` is the distance from a place to the first NUL behind it,
//! `None` exactly where none follows, and takes no memory. `get` is the string itself, which shares its bytes with the
//! table.
//!
//! To make a table and to get a string may fail by want of memory, and in no other way: a place outside the table has
//! no string.
//!
//! A body that answers a string with its NUL isn't proved, nor one that loses a string whose NUL stands in a later
//! block of the table.
#![tactic(auto)]

mod search;
mod table;

pub use search::{first_nul, string_at};
pub use table::Strings;
