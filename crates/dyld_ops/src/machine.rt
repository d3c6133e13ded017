//! The machine that follows opcodes.

ghost use Rattle.std.specs.Prelude.{◌≡◌, ◌+◌, ◌-◌, ◌≤◌, ◌<◌, ◌^◌, ◌%◌, Ok, Err, None, Some, IfOk, drop, length, take};
ghost use Rattle.mo_types.specs.Gives.{Gives};
ghost use Rattle.image_read.specs.Meaning.{long_in};
ghost use Rattle.dyld_ops.specs.Machine as machines;
ghost use Rattle.dyld_ops.specs.Machine.{IsFault};
ghost use Rattle.dyld_ops.specs.Opcodes.{IsNamed};
ghost use Rattle.dyld_ops.specs.inner.Leaves.{Leaves, IsLayout};

use crate::fixup::{OpAct, OpsFault};
use crate::fixups::Fixups;
use crate::info::Layout;
use crate::op::Op;
use image_read::{Meaning, denote};
use mo_types::{Bytes, OutOfMemory, RefKind};
use std::alloc::Global;

/// A machine: the place of the next fixup, what is bound there, and what is fixed so far.
#[derive(Drop)]
pub struct Machine {
    /// The segment of the place, by its number from 0.
    pub segment: Option<u8>,
    /// The offset of the place in the segment.
    pub offset: u64,
    pub ordinal: Option<i32>,
    pub name: Option<Bytes>,
    pub optional: bool,
    pub addend: i64,
    pub fixups: Fixups,
}

// An address that may be fixed, and the word that stands there.
#[derive(Clone, Copy)]
struct Place {
    address: u64,
    word: u64,
}

fn broken<T>(at: usize) -> Result<T, OpsFault>
    ensures { result ≡ Err (machines.broken_at at) }
{
    Err(OpsFault::Broken { place: at as u64 })
}

impl Machine {
    /// A machine before the first opcode of a table.
    pub fn new(fixups: Fixups) -> Machine
        ensures { result ≡ machines.fresh fixups }
    {
        Machine {
            segment: None,
            offset: 0,
            ordinal: None,
            name: None,
            optional: false,
            addend: 0,
            fixups,
        }
    }

    // The address of the place.
    fn address(&self, image: &[u8], layout: &Layout) -> Option<u64>
        requires { IsLayout image.now layout.now }
        ensures { result ≡ machines.address_of image.now self.now }
    {
        let address = *layout.addresses.get(usize::from(self.segment?))?;
        Some(address.wrapping_add(self.offset))
    }

    fn forward(&mut self, count: u64)
        ensures { self.new ≡ machines.forward count self.old }
    {
        self.offset = self.offset.wrapping_add(count);
    }
}

#[tactic(auto, using(crate::proofs::WordLemmas::words))]
fn word_at(image: &[u8], address: u64) -> Option<u64>
    ensures { result ≡ long_in image.now address }
{
    match denote(image, address, RefKind::Diff64) {
        Meaning::Difference(number) => Some(number.cast_unsigned()),
        _ => None,
    }
}

// The act at the place, if it may be fixed; then the place goes on behind it.
fn fix(at: usize, address: u64, act: OpAct, machine: &mut Machine) -> Result<(), OpsFault>
    ensures { Leaves result machine.new (machines.fixed_with at address machine.old act) }
{
    if machine.fixups.holds(address) {
        return broken(at);
    }
    machine.fixups.add(address, act)?;
    machine.forward(8);
    Ok(())
}

// The address of the place, and the word that stands there.
fn find_place(
    image: &[u8],
    layout: &Layout,
    at: usize,
    machine: &Machine,
) -> Result<Place, OpsFault>
    requires { IsLayout image.now layout.now }
    ensures { Gives IsFault result (machines.place_of image.now at machine.now) }
{
    let Some(address) = machine.address(image, layout) else {
        return broken(at);
    };
    let Some(word) = word_at(image, address) else {
        return broken(at);
    };
    Ok(Place { address, word })
}

fn rebase_of(image: &[u8], layout: &Layout, word: u64) -> Option<OpAct>
    requires { IsLayout image.now layout.now }
    ensures { result ≡ machines.rebase_of image.now word }
{
    let offset = word.wrapping_sub(layout.base?);
    Some(OpAct::Rebase { offset })
}

fn rebase(image: &[u8], layout: &Layout, at: usize, machine: &mut Machine) -> Result<(), OpsFault>
    requires { IsLayout image.now layout.now }
    ensures { Leaves result machine.new (machines.fixed image.now at machine.old (machines.rebase_of image.now)) }
{
    let place = find_place(image, layout, at, machine)?;
    match rebase_of(image, layout, place.word) {
        Some(act) => fix(at, place.address, act, machine),
        None => broken(at),
    }
}

fn bind_of(machine: &Machine) -> Result<Option<OpAct>, OutOfMemory>
    ensures { IfOk result (λ act. act ≡ machines.bind_of machine.now) }
{
    let Some(name) = &machine.name else {
        return Ok(None);
    };
    let Some(ordinal) = machine.ordinal else {
        return Ok(None);
    };
    Ok(Some(OpAct::Bind {
        name: name.clone()?,
        ordinal,
        addend: machine.addend,
        optional: machine.optional,
    }))
}

fn bind(image: &[u8], layout: &Layout, at: usize, machine: &mut Machine) -> Result<(), OpsFault>
    requires { IsLayout image.now layout.now }
    ensures { Leaves result machine.new (machines.fixed image.now at machine.old (λ word. machines.bind_of machine.old)) }
{
    let place = find_place(image, layout, at, machine)?;
    match bind_of(machine)? {
        Some(act) => fix(at, place.address, act, machine),
        None => broken(at),
    }
}

#[tactic(auto, using(crate::proofs::MachineLemmas::rebases), unfolding(crate::specs::Machine::rebased))]
fn rebase_all(
    image: &[u8],
    layout: &Layout,
    at: usize,
    count: u8,
    machine: &mut Machine,
) -> Result<(), OpsFault>
    requires { IsLayout image.now layout.now }
    ensures { Leaves result machine.new (machines.rebased image.now at count machine.old) }
{
    for _ in 0..count {
        rebase(image, layout, at, machine)?;
    }
    Ok(())
}

fn enter(
    layout: &Layout,
    at: usize,
    index: u8,
    offset: u64,
    machine: &mut Machine,
) -> Result<(), OpsFault>
    ensures { Leaves result machine.new (machines.in_segment layout.now.addresses.items at index offset machine.old) }
{
    if usize::from(index) >= layout.addresses.len() {
        return broken(at);
    }
    machine.segment = Some(index);
    machine.offset = offset;
    Ok(())
}

fn part(alloc: Global, image: &[u8], at: usize, size: usize) -> Result<Bytes, OutOfMemory>
    requires { at + size ≤ length image.now }
    ensures { IfOk result (λ part. part ≡ take size (drop at image.now)) }
{
    let rest = &image[at..];
    Bytes::from_slice(alloc, &rest[..size])
}

/// What the opcode at a place does to a machine.
pub fn obey(
    alloc: Global,
    image: &[u8],
    layout: &Layout,
    at: usize,
    op: Op,
    machine: &mut Machine,
) -> Result<(), OpsFault>
    requires layout { IsLayout image.now layout.now }
    requires name { IsNamed (length image.now) op }
    ensures { Leaves result machine.new (machines.after image.now at op machine.old) }
{
    match op {
        Op::Done | Op::Pointers => {}
        Op::Segment { index, offset } => return enter(layout, at, index, offset, machine),
        Op::Forward(count) => machine.forward(count),
        Op::Rebase(count) => return rebase_all(image, layout, at, count, machine),
        Op::Ordinal(ordinal) => machine.ordinal = Some(ordinal),
        Op::Name {
            at: from,
            size,
            optional,
        } => {
            machine.name = Some(part(alloc, image, from, size)?);
            machine.optional = optional;
        }
        Op::Addend(addend) => machine.addend = addend,
        Op::Bind => return bind(image, layout, at, machine),
    }
    Ok(())
}
