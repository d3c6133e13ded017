//! Atoms in groups.
ghost use Rattle.std.specs.Prelude.{◌≡◌, ◌<◌, ◌^◌, true, All};
ghost use Rattle.island_core.specs.declared.cut.Extent.{Extent};

use crate::first_wrong;
use island_core::{Extent, cut_atoms};
use mo_types::OutOfMemory;
use std::alloc::Global;
use std::test::Fail;

// Whether atoms begin at addresses.
fn are_near(extents: &[Extent]) -> bool
    ensures { result ≡ true → All (λ (extent : Extent). extent.from < 2 ^ 66) extents.now }
{
    extents.iter().all(|extent| extent.from < 1 << 66)
}

// Whether atoms of so many bytes each, one behind the other, are cut at these numbers.
fn cuts(alloc: Global, sizes: &[u64], most: u64, ends: &[usize]) -> Result<bool, OutOfMemory> {
    let mut extents = Vec::new(alloc);
    let mut at: u64 = 0x1_0000_0428;
    for size in sizes {
        let end = at.wrapping_add(*size);
        extents.push(Extent {
            from: u128::from(at),
            to: u128::from(end),
        })?;
        at = end;
    }
    if !are_near(extents.as_slice()) {
        return Ok(false);
    }
    let found = cut_atoms(alloc, extents.as_slice(), u128::from(most))?;
    Ok(found.as_slice() == ends)
}

// Groups of at most 2,048 bytes.
#[test]
fn atoms_are_cut_into_groups(rt: HostRuntime) -> Result<(), Fail> {
    let alloc = rt.alloc();
    let rows = [
        ("none", cuts(alloc, &[], 2048, &[])?),
        ("one", cuts(alloc, &[4], 2048, &[1])?),
        ("one that is larger", cuts(alloc, &[8192], 2048, &[1])?),
        (
            "just full",
            cuts(alloc, &[2048, 2048, 2048], 2048, &[1, 2, 3])?,
        ),
        (
            "two that fit",
            cuts(alloc, &[1024, 1024, 4], 2048, &[2, 3])?,
        ),
        (
            "four bytes too many",
            cuts(alloc, &[1024, 1028, 1020], 2048, &[1, 3])?,
        ),
        (
            "a large one between",
            cuts(alloc, &[4, 4, 4096, 4, 4], 2048, &[2, 3, 5])?,
        ),
        (
            "empty ones behind a full group",
            cuts(alloc, &[2048, 0, 0, 4], 2048, &[3, 4])?,
        ),
    ];
    assert_eq!(rt; first_wrong(&rows), "");
    Ok(())
}
