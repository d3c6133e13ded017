//! The names that libraries provide, noted library by library. A document is looked at once, for the first library that
//! reaches it: what a later one reaches again is provided by the earlier one.
ghost use Rattle.std.specs.Prelude.{◌≡◌, ◌+◌, ◌<◌, ◌⊎◌, ◌&&◌, ℕ, List, [], true, false, Some, Contains, IfOk, length, get_or, slice_get, zip, bytes_eq};
ghost use Rattle.mo_types.specs.Scan.{first_some, option_or_else};
ghost use Rattle.lib_bind.specs.Provides as provides;
ghost use Rattle.lib_bind.specs.declared.library.Library.{Library as Lib};
ghost use Rattle.lib_bind.specs.declared.provider.Offer.{Offer as Offered};
ghost use Rattle.lib_bind.specs.inner.Index.{known};
ghost use Rattle.lib_bind.specs.inner.Filling.{AddsDocument, AddsNames, Covers, IsBefore, adds, exports_name, weakens_name};

use crate::index::NameIndex;
use crate::library::{Library, NumberList};
use crate::provider::Offer;
use mo_types::OutOfMemory;
use std::alloc::Global;
use tbd_doc::{Export, Stub};

// What is known of names, and which documents were looked at.
#[derive(Drop)]
pub struct Filling {
    pub index: NameIndex,
    pub seen: Vec<bool>,
}

// Whether a library's offer becomes a weak one.
fn adds(offer: &Offer, library: &Library, weak: bool) -> bool
    ensures { result ≡ adds offer.now library.now weak }
{
    offer.library.ordinal == library.ordinal && weak && !offer.weak
}

// Notes one name of a document.
fn add_export(
    alloc: Global,
    index: NameIndex,
    library: Library,
    export: &Export,
) -> Result<NameIndex, OutOfMemory>
    ensures { IfOk result (AddsNames library (λ name. bytes_eq name export.now.name) (λ name. bytes_eq name export.now.name && export.now.weak) index) }
{
    let name = export.name.as_slice();
    match index.get(name) {
        None => index.note(
            alloc,
            name,
            Offer {
                library,
                weak: export.weak,
            },
        ),
        Some(offer) => {
            if adds(&offer, &library, export.weak) {
                index.note(
                    alloc,
                    name,
                    Offer {
                        library: offer.library,
                        weak: true,
                    },
                )
            } else {
                Ok(index)
            }
        }
    }
}

// Notes the names of a document.
fn add_exports(
    alloc: Global,
    before: NameIndex,
    library: Library,
    exports: &[Export],
) -> Result<NameIndex, OutOfMemory>
    ensures { IfOk result (AddsNames library (exports_name exports.now) (weakens_name exports.now) before) }
{
    let mut index = before;
    for export in exports {
        index = add_export(alloc, index, library, export)?;
    }
    Ok(index)
}

// Notes the names of a document, unless it was looked at before.
fn add_document(
    alloc: Global,
    before: Filling,
    library: Library,
    documents: &[Stub],
    at: usize,
) -> Result<Filling, OutOfMemory>
    requires size { length before.seen.items ≡ length documents.now }
    requires within { at < length documents.now }
    ensures size { IfOk result (λ new. length new.seen.items ≡ length documents.now) }
    ensures marks { IfOk result (λ new. (d : ℕ) → get_or new.seen.items d false ≡ true → (d ≡ at) ⊎ (get_or before.seen.items d false ≡ true)) }
    ensures new { IfOk result (λ new. get_or before.seen.items at false ≡ false → AddsDocument library documents.now at before new) }
    ensures seen { IfOk result (λ new. get_or before.seen.items at false ≡ true → (name : List ℕ) → known new.index name ≡ known before.index name) }
{
    let Filling { index, mut seen } = before;
    if seen[at] {
        return Ok(Filling { index, seen });
    }
    seen[at] = true;
    let index = add_exports(alloc, index, library, documents[at].exports.as_slice())?;
    Ok(Filling { index, seen })
}

// Notes the names of the documents that a library reaches.
fn add_reached(
    alloc: Global,
    before: Filling,
    library: Library,
    documents: &[Stub],
    reached: &[usize],
) -> Result<Filling, OutOfMemory>
    requires size { length before.seen.items ≡ length documents.now }
    requires within { (d : ℕ) → Contains reached.now d → d < length documents.now }
    requires covers { Covers documents.now before }
    requires before { IsBefore library.ordinal before.index }
    ensures size { IfOk result (λ new. length new.seen.items ≡ length documents.now) }
    ensures covers { IfOk result (Covers documents.now) }
    ensures before { IfOk result (λ new. IsBefore (library.ordinal + 1) new.index) }
    ensures names { IfOk result (λ new. (name : List ℕ)
        → known new.index name ≡ option_or_else (known before.index name) (provides.offer_by documents.now name (library, reached.now))) }
{
    let mut filling = before;
    for document in reached {
        filling = add_document(alloc, filling, library, documents, *document)?;
    }
    Ok(filling)
}

/// The index of the names that libraries provide, each with the first library that does.
pub fn index_of(
    alloc: Global,
    libraries: &[Library],
    reach: &[NumberList],
    documents: &[Stub],
) -> Result<NameIndex, OutOfMemory>
    requires each { length reach.now ≡ length libraries.now }
    requires within { (at d : ℕ) → Contains (get_or reach.now at []) d → d < length documents.now }
    requires ordinals { (at : ℕ) (library : Lib) → slice_get libraries.now at ≡ Some library → library.ordinal ≡ at + 1 }
    ensures { IfOk result (λ index. (name : List ℕ) → known index name ≡ first_some (provides.offer_by documents.now name) (zip libraries.now reach.now)) }
{
    let mut filling = Filling {
        index: NameIndex::new(alloc),
        seen: vec![in alloc; false; documents.len()]?,
    };
    for at in 0..libraries.len() {
        filling = add_reached(
            alloc,
            filling,
            libraries[at],
            documents,
            reach[at].as_slice(),
        )?;
    }
    let Filling { index, .. } = filling;
    Ok(index)
}
