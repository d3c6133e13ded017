//! The first value that is out of range.
ghost use Rattle.std.specs.Prelude.{◌≡◌, Err, Some};
ghost use Rattle.std.specs.Ordering.{is_gt};
ghost use Rattle.fixup_chain.specs.Chained.{IsRefused};
ghost use Rattle.fixup_chain.specs.declared.chains.ChainFault.TheVariants as chain;
ghost use Rattle.image_make.specs.Inputs.{inputs_with};
ghost use Rattle.image_make.specs.Made.{IsMadeWith};
ghost use Rattle.image_make.specs.inner.Laid.{IsLaidOut};
ghost use Rattle.image_make.specs.inner.Unfit.{compare_faults, first_of, first_with, of_atom};

use crate::fault::MakeFault;
use crate::filling::{Laid, told_fault};
use crate::making::ImageInputs;
use mo_outside::Gate;
use mo_types::AtomKey;
use patch::RangeFault;
use std::alloc::Global;
use std::cmp::Ordering;
use std::thread::Threads;

// A value that is out of range, with its atom.
#[derive(Clone, Copy)]
struct AtomFault {
    key: AtomKey,
    fault: RangeFault,
}

/// A pointer that is out of range, with its atom, or of a slot.
#[derive(Clone, Copy)]
pub(crate) struct PointerFault {
    pub atom: Option<AtomKey>,
    pub fault: RangeFault,
}

// Whether a value stands behind another one: in an atom of a greater key, or in the same atom at a greater place.
fn is_behind(a: &AtomFault, b: &AtomFault) -> bool
    ensures { result ≡ is_gt (compare_faults a.now b.now) }
{
    match a.key.cmp(&b.key) {
        Ordering::Less => false,
        Ordering::Equal => a.fault.file_place > b.fault.file_place,
        Ordering::Greater => true,
    }
}

// The first of two values.
fn first_of(a: AtomFault, b: AtomFault) -> AtomFault
    ensures { result ≡ first_of a b }
{
    if is_behind(&a, &b) { b } else { a }
}

fn of_atom(one: AtomFault) -> MakeFault
    ensures { result ≡ of_atom one }
{
    MakeFault::Range {
        atom: Some(one.key),
        fault: one.fault,
    }
}

// The first of a pointer's value and a field's.
fn first_with(pointer: AtomFault, field: MakeFault) -> MakeFault
    ensures { result ≡ first_with pointer field }
{
    match field {
        MakeFault::Range {
            atom: Some(key),
            fault,
        } => of_atom(first_of(pointer, AtomFault { key, fault })),
        other => other,
    }
}

// The fault of the first value of atoms, where a pointer of one is the first one that is out of range.
fn first_in_atoms<R: Threads + Sync, G: Gate + Sync>(
    rt: &R,
    alloc: Global,
    gate: &G,
    threads: u32,
    inputs: &ImageInputs,
    laid: &Laid,
    pointer: AtomFault,
) -> MakeFault
    requires laid { IsLaidOut (inputs_with inputs.now laid.now.info.now) laid.now }
    requires first { IsRefused laid.now.scene.now.layout.now laid.now.fixups.now
        (chain.Range (Some pointer.key) pointer.fault.file_place pointer.fault.kind pointer.fault.value) }
    ensures { IsMadeWith (inputs_with inputs.now laid.now.info.now) (Err result) }
{
    let _ = inputs;
    match told_fault(rt, alloc, gate, threads, laid) {
        Ok(()) => of_atom(pointer),
        Err(field) => first_with(pointer, field),
    }
}

/// The fault of the first value that is out of range, where a pointer is the first one of pointers.
pub(crate) fn first_fault<R: Threads + Sync, G: Gate + Sync>(
    rt: &R,
    alloc: Global,
    gate: &G,
    threads: u32,
    inputs: &ImageInputs,
    laid: &Laid,
    pointer: PointerFault,
) -> MakeFault
    requires laid { IsLaidOut (inputs_with inputs.now laid.now.info.now) laid.now }
    requires first { IsRefused laid.now.scene.now.layout.now laid.now.fixups.now
        (chain.Range pointer.atom pointer.fault.file_place pointer.fault.kind pointer.fault.value) }
    ensures { IsMadeWith (inputs_with inputs.now laid.now.info.now) (Err result) }
{
    let fault = pointer.fault;
    match pointer.atom {
        Some(key) => first_in_atoms(
            rt,
            alloc,
            gate,
            threads,
            inputs,
            laid,
            AtomFault { key, fault },
        ),
        None => MakeFault::Range { atom: None, fault },
    }
}
