//! Tables of arrows.
use mark_race::EndTable;
use mo_types::OutOfMemory;
use std::alloc::Global;

/// Each atom leads to the next one.
pub(crate) fn chain(alloc: Global, count: u32) -> Result<EndTable, OutOfMemory> {
    let mut table = EndTable::new(alloc);
    for atom in 1..count {
        table = table.with_row(&[atom])?;
    }
    table.with_row(&[])
}

/// The first atom leads to all others.
pub(crate) fn star(alloc: Global, count: u32) -> Result<EndTable, OutOfMemory> {
    let mut ends = Vec::new(alloc);
    for atom in 1..count {
        ends.push(atom)?;
    }
    let mut table = EndTable::new(alloc).with_row(ends.as_slice())?;
    for _atom in 1..count {
        table = table.with_row(&[])?;
    }
    Ok(table)
}

/// Rings of ten atoms, in which each leads to the next one.
pub(crate) fn rings(alloc: Global, count: u32) -> Result<EndTable, OutOfMemory> {
    let mut table = EndTable::new(alloc);
    for atom in 0..count {
        let next = if atom % 10 == 9 {
            atom - 9
        } else {
            atom.wrapping_add(1)
        };
        table = table.with_row(&[next])?;
    }
    Ok(table)
}

/// The next of some numbers without a pattern.
pub(crate) fn next(number: u32) -> u32 {
    let mut next = number;
    next ^= next.wrapping_shl(13);
    next ^= next.wrapping_shr(17);
    next ^ next.wrapping_shl(5)
}

/// Each atom leads to two, one or none, without a pattern.
pub(crate) fn scattered(alloc: Global, count: u32, seed: u32) -> Result<EndTable, OutOfMemory> {
    let mut table = EndTable::new(alloc);
    let mut number = seed.wrapping_mul(0x9e37_79b9) | 1;
    for _atom in 0..count {
        let first = next(number);
        let second = next(first);
        number = next(second);
        let row = [first % count, second % count];
        table = match number % 4 {
            0 => table.with_row(&row)?,
            1 => table.with_row(&[])?,
            _ => table.with_row(&[first % count])?,
        };
    }
    Ok(table)
}
