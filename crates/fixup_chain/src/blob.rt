//! The part that tells the loader of the chains.
ghost use Rattle.std.specs.Prelude.{◌≡◌, ◌++◌, IfOk, OnOk};
ghost use Rattle.fixup_chain.specs.Encoded as encoded;

use crate::starts::put_zeros;
use image_format::ChainedFixupsHeader;
use image_format::fixup_chains::{DYLD_CHAINED_IMPORT, DYLD_CHAINED_IMPORT_ADDEND64};
use mo_types::OutOfMemory;
use std::alloc::Global;

// Appends the header of parts of some sizes.
#[tactic(auto, using(crate::proofs::StartLemmas::zeros), unfolding(crate::specs::Encoded::header_bytes))]
fn put_header(
    out: &mut Vec<u8>,
    wide: bool,
    starts: usize,
    rows: usize,
    count: u32,
) -> Result<(), OutOfMemory>
    ensures { OnOk result (out.new.items ≡ out.old.items ++ encoded.header_bytes wide starts rows count) }
{
    let unit = if wide { 8 } else { 4 };
    let imports = 32 + (starts as u128 + ((unit - starts % unit) % unit) as u128);
    let format = if wide {
        DYLD_CHAINED_IMPORT_ADDEND64
    } else {
        DYLD_CHAINED_IMPORT
    };
    ChainedFixupsHeader {
        fixups_version: 0,
        starts_offset: 32,
        imports_offset: (imports % 0x1_0000_0000) as u32,
        symbols_offset: ((imports + rows as u128) % 0x1_0000_0000) as u32,
        imports_count: count,
        imports_format: format,
        symbols_format: 0,
    }
    .write(out)?;
    Ok(())
}

/// The parts behind their header, each at its place, with zeros up to a multiple of 8.
#[tactic(auto, using(crate::proofs::BlobLemmas::joining))]
pub(crate) fn joined(
    alloc: Global,
    wide: bool,
    count: u32,
    starts: &[u8],
    rows: &[u8],
    pool: &[u8],
) -> Result<Vec<u8>, OutOfMemory>
    ensures { IfOk result (λ made. made.items ≡ encoded.padded (encoded.joined wide count starts.now rows.now pool.now)) }
{
    let mut made = Vec::new(alloc);
    put_header(&mut made, wide, starts.len(), rows.len(), count)?;
    made.extend_from_slice(&[0, 0, 0, 0])?;
    made.extend_from_slice(starts)?;
    put_zeros(&mut made, if wide { 8 } else { 4 }, starts.len())?;
    made.extend_from_slice(rows)?;
    made.extend_from_slice(pool)?;
    let size = made.len();
    put_zeros(&mut made, 8, size)?;
    Ok(made)
}
