ghost use Rattle.std.specs.Prelude.{◌<◌};

use mo_types::{
    Bytes, FileId, Loaded, LoadedList, Object, OutOfMemory, SectionList, Symbol, SymbolKind,
    SymbolList,
};
use std::alloc::Global;
use test_objects::{file, object, symbol};

// How a name begins: 33 bytes.
const FRONT: &[u8] = b"_a_name_of_C_that_has_forty_bytes";

// How many bytes a name has.
const SIZE: usize = 40;

// How many symbols a file has.
const SYMBOLS: u32 = 1000;

// The names of a file's symbols, each with a NUL: those of the numbers from the first on, scattered among so many names.
fn strings_of(alloc: Global, first: u32, names: u32) -> Result<Bytes, OutOfMemory>
    requires { 0 < names }
{
    let mut strings = Vec::new(alloc);
    for i in 0..SYMBOLS {
        let mut rest = (u64::from(first) + u64::from(i)) * 7919 % u64::from(names);
        strings.extend_from_slice(FRONT)?;
        for _digit in 0..7 {
            strings.push(b'0' + (rest % 10) as u8)?;
            rest /= 10;
        }
        strings.push(0)?;
    }
    Ok(Bytes::from_vec(strings)?)
}

// External symbols with the names that stand in a table of strings.
fn symbols_of(alloc: Global, strings: &Bytes) -> Result<SymbolList, OutOfMemory> {
    let mut symbols = SymbolList::new(alloc);
    for i in 0..SYMBOLS {
        let at = i as usize * (SIZE + 1);
        if at + SIZE <= strings.len() {
            symbols.push(Symbol {
                name: strings.part(at, SIZE)?,
                external: true,
                ..symbol(b"", SymbolKind::Undefined)
            })?;
        }
    }
    Ok(symbols)
}

fn object_of(alloc: Global, first: u32, names: u32) -> Result<Object, OutOfMemory>
    requires { 0 < names }
{
    let strings = strings_of(alloc, first, names)?;
    let symbols = symbols_of(alloc, &strings)?;
    Ok(object(SectionList::new(alloc), symbols))
}

/// So many files of a thousand external symbols each, whose names are so many.
pub(crate) fn files_of(alloc: Global, count: u32, names: u32) -> Result<Loaded, OutOfMemory>
    requires { 0 < names }
{
    let mut files = LoadedList::new(alloc);
    for member in 0..count {
        let id = FileId {
            position: 0,
            member,
        };
        let first = member.wrapping_mul(SYMBOLS);
        let object = object_of(alloc, first, names)?;
        files.push(file(alloc, id, object))?;
    }
    Ok(Loaded { files })
}
