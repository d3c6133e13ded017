ghost use Rattle.std.specs.Prelude.{◌≡◌, [], get_or};
ghost use Rattle.name_ids.specs.declared.numbered.TheConstants.{NO_NUMBER as NO_NAME};

use crate::table::NameTable;
use mo_types::{Items, Loaded};

/// The number of what isn't external.
pub const NO_NUMBER: u32 = u32::MAX;

/// The numbers of the symbols of a file, in the order of its table.
pub type NumberList = Items<u32>;

/// Names, and the number of the name of each symbol of files, file by file, in the order of each file's table.
#[derive(Drop)]
pub struct Numbered {
    pub names: NameTable,
    pub numbers: Items<NumberList>,
}

/// The files of a link, with all names of the link and the numbers of the names of their symbols.
#[derive(Drop)]
pub struct NamedFiles {
    pub loaded: Loaded,
    pub numbered: Numbered,
}

/// The number of a file's symbol, of those of all its symbols; `NO_NUMBER` behind the last.
pub fn number_at(numbers: &[u32], symbol: usize) -> u32
    ensures { result ≡ get_or numbers.now symbol NO_NAME }
{
    match numbers.get(symbol) {
        Some(number) => *number,
        None => NO_NUMBER,
    }
}

/// The numbers of a file's symbols, of those of all files; none behind the last.
pub fn numbers_at(lists: &[NumberList], file: usize) -> &[u32]
    ensures { result.now ≡ get_or lists.now file [] }
{
    match lists.get(file) {
        Some(numbers) => numbers.as_slice(),
        None => &[],
    }
}
