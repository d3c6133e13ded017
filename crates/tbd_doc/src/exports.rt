//! The order of names, and the exports.

ghost use Rattle.std.specs.Prelude.{◌≡◌, IfOk, map};
ghost use Rattle.std.specs.List.{list_any};
ghost use Rattle.std.specs.List.Sorted.{IsStrictlySortedBy};
ghost use Rattle.std.specs.Ordering.{nat_cmp};
ghost use Rattle.std.specs.Cmp.Lexicographic.{slice_cmp};
ghost use Rattle.std.specs.Str.{bytes_eq};
ghost use Rattle.tbd_doc.specs.Exports as spec;

use crate::stub::{Export, ExportList};
use mo_types::{Bytes, Items, OutOfMemory};
use std::alloc::Global;

// Sorts names, and leaves each once.
fn put_in_order(names: &mut Vec<Bytes>)
    ensures { names.new.items ≡ spec.in_order names.old.items }
{
    names.sort_unstable();
    names.dedup();
}

fn is_among(names: &[Bytes], name: &Bytes) -> bool
    requires { IsStrictlySortedBy (slice_cmp nat_cmp) names.now }
    ensures { result ≡ list_any (bytes_eq name.now) names.now }
{
    match names.binary_search(name) {
        Ok(_) => true,
        Err(_) => false,
    }
}

fn exports_among(alloc: Global, names: &[Bytes], weak: &[Bytes]) -> Result<Vec<Export>, OutOfMemory>
    requires { IsStrictlySortedBy (slice_cmp nat_cmp) weak.now }
    ensures { IfOk result (λ exports. exports.items ≡ map (spec.export_among weak.now) names.now) }
{
    let mut exports = Vec::with_capacity(alloc, names.len())?;
    for name in names {
        let weak = is_among(weak, name);
        let name = name.clone()?;
        exports.push(Export { name, weak })?;
    }
    Ok(exports)
}

/// The exports of names, of which some are weak.
pub fn exports_of(
    alloc: Global,
    names: Vec<Bytes>,
    weak: Vec<Bytes>,
) -> Result<ExportList, OutOfMemory>
    ensures { IfOk result (λ exports. exports ≡ spec.exports_of names.items weak.items) }
{
    let mut names = names;
    let mut weak = weak;
    put_in_order(&mut names);
    put_in_order(&mut weak);
    let exports = exports_among(alloc, names.as_slice(), weak.as_slice())?;
    Ok(Items::from_vec(exports))
}
