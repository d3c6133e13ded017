//! The references of an object.

ghost use Rattle.std.specs.Prelude.{◌≡◌, ◌↔◌, [], ◌∷◌, ◌++◌, ◌<◌, length, slice_get, slice_index_or, IsTrue, OnOk, OnErr, OnSome};
ghost use Rattle.std.specs.List.{list_any};
ghost use Rattle.mo_types.specs.LocalEnds as ends;
ghost use Rattle.mo_types.specs.declared.reference.Ref.{Ref};
ghost use Rattle.mo_types.specs.declared.ref_row.Row.TheVariants as row;
ghost use Rattle.mo_types.specs.inner.RefRows as spec;

use crate::key::FileId;
use crate::memory::OutOfMemory;
use crate::ref_row::{Row, ref_of, row_of};
use crate::reference::Ref;
use std::alloc::Global;
use std::marker::Model;

/// The references of an object: section by section, and in a section in the order of its relocations. Contracts see
/// it as the list of them.
///
/// A reference from the list's own file to a symbol, less another symbol or nothing, takes 32 bytes, where its numbers
/// have 32 bits. Any other one is kept whole besides.
#[derive(Debug, Drop)]
pub struct RefList {
    file: FileId,
    rows: Vec<Row>,
    others: Vec<Ref>,
    has_local: bool,
}

impl Model for RefList {
    ghost use Rattle.std.specs.Prelude.{◌≡◌, List, length};
    ghost use Rattle.std.specs.List.{list_any};
    ghost use Rattle.mo_types.specs.LocalEnds as ends;
    ghost use Rattle.mo_types.specs.declared.reference.Ref.{Ref};
    ghost use Rattle.mo_types.specs.inner.RefRows.{AreRowsWithin, refs_of_rows};

    ghost Value = { List Ref };

    ghost view = { λ list. refs_of_rows list.file list.others.items list.rows.items };

    ghost invariant = { λ list. AreRowsWithin (length list.others.items) list.rows.items
        × (list.has_local ≡ list_any ends.has_local (refs_of_rows list.file list.others.items list.rows.items)) };
}

// Puts a reference behind those that are kept whole, and its row behind the rows.
fn add_other(rows: &mut Vec<Row>, others: &mut Vec<Ref>, reference: Ref) -> Result<(), OutOfMemory>
    ensures row { OnOk result (rows.new.items ≡ rows.old.items ++ row.Other (length others.old.items) ∷ []) }
    ensures other { OnOk result (others.new.items ≡ others.old.items ++ reference ∷ []) }
    ensures err_rows { OnErr result (rows.new.items ≡ rows.old.items) }
    ensures err_others { OnErr result (others.new.items ≡ others.old.items) }
{
    let row = Row::Other(others.len());
    others.push(reference)?;
    let pushed = rows.push(row);
    if pushed.is_err() {
        others.truncate(others.len() - 1);
    }
    Ok(pushed?)
}

// Puts a reference behind those of a file's rows.
#[tactic(auto, using(crate::proofs::RefRowLemmas::pushes))]
fn add(
    file: FileId,
    rows: &mut Vec<Row>,
    others: &mut Vec<Ref>,
    reference: Ref,
) -> Result<(), OutOfMemory>
    requires { spec.AreRowsWithin (length others.now.items) rows.now.items }
    ensures ok { OnOk result (spec.refs_of_rows file others.new.items rows.new.items
        ≡ spec.refs_of_rows file others.old.items rows.old.items ++ reference ∷ []) }
    ensures within { spec.AreRowsWithin (length others.new.items) rows.new.items }
    ensures err_rows { OnErr result (rows.new.items ≡ rows.old.items) }
    ensures err_others { OnErr result (others.new.items ≡ others.old.items) }
{
    match row_of(file, &reference) {
        Some(row) => rows.push(row)?,
        None => add_other(rows, others, reference)?,
    }
    Ok(())
}

impl RefList {
    /// No references, of a file's object, which takes no memory.
    pub fn new(alloc: Global, file: FileId) -> RefList
        ensures { result ≡ [] }
    {
        RefList {
            file,
            rows: Vec::new(alloc),
            others: Vec::new(alloc),
            has_local: false,
        }
    }

    /// Takes room for more references to symbols.
    pub fn reserve(&mut self, more: usize) -> Result<(), OutOfMemory>
        ensures { self.new ≡ self.old }
    {
        self.rows.reserve(more)?;
        Ok(())
    }

    /// Puts a reference at the end; where memory runs out, the list stays as it was.
    #[tactic(auto, using(crate::proofs::RefRowLemmas::flags))]
    pub fn push(&mut self, reference: Ref) -> Result<(), OutOfMemory>
        ensures ok { OnOk result (self.new ≡ self.old ++ reference ∷ []) }
        ensures err { OnErr result (self.new ≡ self.old) }
    {
        let has_local = self.has_local | reference.has_local();
        add(self.file, &mut self.rows, &mut self.others, reference)?;
        self.has_local = has_local;
        Ok(())
    }

    /// How many references it has.
    pub fn len(&self) -> usize
        ensures { result ≡ length self.now }
    {
        self.rows.len()
    }

    /// Whether it has no reference.
    pub fn is_empty(&self) -> bool
        ensures { IsTrue result ↔ (self.now ≡ []) }
    {
        self.rows.is_empty()
    }

    /// Whether a reference leads straight to an atom.
    pub fn has_local(&self) -> bool
        ensures { result ≡ list_any ends.has_local self.now }
    {
        self.has_local
    }

    /// The reference at a place, or `None` exactly where the list ends before it.
    #[tactic(auto, using(crate::proofs::RefRowLemmas::gets))]
    #[inline(always)]
    pub fn get(&self, at: usize) -> Option<Ref>
        ensures value { result ≡ slice_get self.now at }
        ensures within { OnSome result (at < length self.now) }
    {
        let row = *self.rows.get(at)?;
        Some(ref_of(self.file, self.others.as_slice(), row))
    }
}
