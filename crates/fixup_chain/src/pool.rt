//! The pool of the names, and the imports by their names' places there.
ghost use Rattle.std.specs.Prelude.{◌≡◌, ◌++◌, slice_get, IfOk, OnOk};
ghost use Rattle.std.specs.Option.{option_copied};
ghost use Rattle.fixup_chain.specs.Imports as spec;
ghost use Rattle.fixup_chain.specs.inner.Held.{name_before};
ghost use Rattle.fixup_chain.specs.inner.Rows.{rows_at};

use crate::import::Import;
use crate::import_row::ImportRow;
use mo_types::OutOfMemory;
use std::alloc::Global;

/// Imports by the places of their names, and the pool that has these.
#[derive(Drop)]
pub(crate) struct Pooled {
    pub(crate) rows: Vec<ImportRow>,
    pub(crate) pool: Vec<u8>,
}

// Appends the name of an import with a NUL, if the next import has another one.
#[tactic(auto, unfolding(crate::specs::inner::Held::name_before))]
fn put_name(
    out: &mut Vec<u8>,
    import: &Import<'_>,
    next: Option<&Import<'_>>,
) -> Result<(), OutOfMemory>
    ensures { OnOk result (out.new.items ≡ out.old.items ++ name_before import.now (option_copied next.entry)) }
{
    match next {
        Some(next) if import.name() == next.name() => {}
        _ => {
            out.extend_from_slice(import.name())?;
            out.push(0)?;
        }
    }
    Ok(())
}

// The import at an index, if there is one.
fn import_at<'b, 'a>(imports: &'b [Import<'a>], at: usize) -> Option<&'b Import<'a>>
    ensures { option_copied result ≡ slice_get imports.now at }
{
    imports.get(at)
}

/// Imports in their order, and the pool of their names.
#[tactic(auto, using(crate::proofs::PoolLemmas::pooling))]
pub(crate) fn pool_of(alloc: Global, imports: &[Import<'_>]) -> Result<Pooled, OutOfMemory>
    ensures rows { IfOk result (λ all. all.rows.items ≡ rows_at 1 imports.now) }
    ensures pool { IfOk result (λ all. all.pool.items ≡ spec.pool_of imports.now) }
{
    let mut rows = Vec::with_capacity(alloc, imports.len())?;
    let mut pool = Vec::new(alloc);
    pool.push(0)?;
    for (at, import) in imports.iter().enumerate() {
        rows.push(import.row(pool.as_slice().len()))?;
        put_name(&mut pool, import, import_at(imports, at + 1))?;
    }
    Ok(Pooled { rows, pool })
}
