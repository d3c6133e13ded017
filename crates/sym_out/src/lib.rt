//! The symbols of an image (`nlist.h`: nlist_64; `loader.h`: dysymtab_command), with its indirect table and strings,
//! and its map (ld(1): -map).
//!
//! `write_symbols` answers the parts of `__LINKEDIT` that have an image's symbols (`AreSymbolParts`, in
//! `specs/Symbols.antt`), in three ranges. Local ones are the symbols that no other file sees and the winners that no
//! other image sees, where their atoms are placed; they stand by the address of the atom, then by the atom, and then in
//! the order of files. Those that other images see are the other winners, and those that other images have are bound
//! goals; both stand by name. A winner in a literal stands at that which stands for it, and a symbol in a literal for
//! which another one stands isn't written. Each symbol is an nlist_64 that tells the place of its name in the strings,
//! which have one NUL and then the names in the order of the symbols (`specs/Entries.antt`). The indirect table has for
//! each stub and slot the number of its goal's symbol, or that it has none. Numbers of 32 bits are modulo 2^32.
//! `ImageSymbols` are the same in two steps: they are gathered, and tell by counts alone how many bytes their parts
//! will have (`specs/Sizes.antt`), before they are written.
//!
//! `write_map` answers the lines of the kept atoms that a layout places (`IsMap`, in `specs/Map.antt`). Each is the
//! address in 16 hexadecimal digits, the size in 8, what messages call the file, and a name, with spaces between and LF
//! at the end. Lines stand by address, and those of atoms at one address, of which all but one are empty, by key.
//!
//! An atom is called after the first symbol, in the order of its file's table, that stands at its start and whose name
//! no assembler or compiler gave for its own use (`first_name`); where there is none a hyphen stands. Whether the
//! symbol is seen by other files, or wins, doesn't count. `specs/Files.antt` has the symbols of files and where they
//! stand.
//!
//! The module `cursor` finds where a file's symbols stand, from one to the next, `placed` the places of their atoms, and
//! `sites` the addresses of these and the numbers of their sections (`specs/Sites.antt`); `hints` keeps the places for the
//! winners, which stand by name. All of them begin at a place that mostly is the one that is asked for, and search where it
//! isn't. `locals` and `ranges` gather symbols, `sizes` tells their sizes, `entry` writes them, and `parts` makes the parts.
//! Of the map, `names` notes the names of all atoms in one walk over the symbols, `files` finds what files are called, and
//! `map` puts the rows in order and spells them. The calls take whole files, a layout of fewer than 256 sections that places
//! no atom twice, winners and bound goals by rising names, and for the map atoms of fewer than 2^32 bytes; the one error is
//! want of memory.
//!
//! The laws say that the sizes of the parts are known by counts, that each symbol leads to its name, that a stub or
//! slot leads to a symbol of its goal's name, that a bound goal and a winner that other images see have one symbol
//! each, that a winner's word tells the symbol that won, and that the parts and a map are one. A body that lists atoms by key, one
//! that takes the last name of an atom, one that writes a winner at its own literal, and one that tells no symbol for
//! an import don't meet the contracts.
#![tactic(auto)]

mod cursor;
mod entry;
mod files;
mod hints;
mod laws;
mod locals;
mod map;
mod names;
mod parts;
mod placed;
mod ranges;
mod sites;
mod sizes;

pub use laws::{
    bound_goals_have_one_symbol, exported_winners_have_one_symbol, maps_are_one, parts_are_one,
    sizes_are_counts, slots_lead_to_symbols, symbols_lead_to_their_names,
    winners_lead_to_their_symbols,
};
pub use map::write_map;
pub use parts::{SymbolParts, write_symbols};
pub use ranges::ImageSymbols;
pub use sizes::SymbolSizes;
