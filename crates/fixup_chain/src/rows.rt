//! The bytes of the imports.
ghost use Rattle.std.specs.Prelude.{◌≡◌, ◌++◌, IfOk, OnOk};
ghost use Rattle.std.specs.List.{flat_map};
ghost use Rattle.fixup_chain.specs.inner.Rows.{bytes_of};

use crate::import_row::ImportRow;
use image_format::{ChainedImport, ChainedImportAddend64};
use mo_types::OutOfMemory;
use std::alloc::Global;

// Appends an import.
#[tactic(auto, unfolding(crate::specs::inner::Rows::bytes_of, crate::specs::Pool::row_bytes))]
fn put_row(out: &mut Vec<u8>, wide: bool, row: ImportRow) -> Result<(), OutOfMemory>
    ensures { OnOk result (out.new.items ≡ out.old.items ++ bytes_of wide row) }
{
    if wide {
        ChainedImportAddend64 {
            lib_ordinal: row.ordinal,
            weak_import: row.optional,
            reserved: 0,
            name_offset: (row.name % 0x1_0000_0000) as u32,
            addend: row.addend.cast_unsigned(),
        }
        .write(out)?;
    } else {
        ChainedImport {
            lib_ordinal: (row.ordinal % 0x100) as u8,
            weak_import: row.optional,
            name_offset: (row.name % 0x80_0000) as u32,
        }
        .write(out)?;
    }
    Ok(())
}

/// The bytes of imports in their order.
#[tactic(auto, using(crate::proofs::PoolLemmas::rowing))]
pub(crate) fn row_bytes(
    alloc: Global,
    wide: bool,
    rows: &[ImportRow],
) -> Result<Vec<u8>, OutOfMemory>
    ensures { IfOk result (λ made. made.items ≡ flat_map (bytes_of wide) rows.now) }
{
    let mut made = Vec::new(alloc);
    for row in rows {
        put_row(&mut made, wide, *row)?;
    }
    Ok(made)
}
