//! The opcode at a place of a table.

ghost use Rattle.std.specs.Prelude.{◌≡◌, ◌+◌, ◌<◌, ◌≤◌, ◌^◌, length, IfSome};
ghost use Rattle.dyld_ops.specs.Opcodes as opcodes;
ghost use Rattle.dyld_ops.specs.Opcodes.{IsWithin};

use crate::loader::{
    BIND_OPCODE_ADD_ADDR_ULEB, BIND_OPCODE_DO_BIND, BIND_OPCODE_DONE, BIND_OPCODE_SET_ADDEND_SLEB,
    BIND_OPCODE_SET_DYLIB_ORDINAL_IMM, BIND_OPCODE_SET_DYLIB_ORDINAL_ULEB,
    BIND_OPCODE_SET_DYLIB_SPECIAL_IMM, BIND_OPCODE_SET_SEGMENT_AND_OFFSET_ULEB,
    BIND_OPCODE_SET_SYMBOL_TRAILING_FLAGS_IMM, BIND_OPCODE_SET_TYPE_IMM,
    BIND_SPECIAL_DYLIB_FLAT_LOOKUP, BIND_SPECIAL_DYLIB_WEAK_LOOKUP, BIND_SYMBOL_FLAGS_WEAK_IMPORT,
    BIND_TYPE_POINTER, REBASE_OPCODE_ADD_ADDR_IMM_SCALED, REBASE_OPCODE_ADD_ADDR_ULEB,
    REBASE_OPCODE_DO_REBASE_IMM_TIMES, REBASE_OPCODE_DONE,
    REBASE_OPCODE_SET_SEGMENT_AND_OFFSET_ULEB, REBASE_OPCODE_SET_TYPE_IMM, REBASE_TYPE_POINTER,
};
use crate::op::{Decoded, Op, Table};
use crate::sleb::sleb_read;
use mo_bytes::uleb_read;
use mo_strings::first_nul;

fn only(test: bool, op: Op, next: usize) -> Option<Decoded>
    ensures { result ≡ opcodes.only test op next }
{
    if !test {
        return None;
    }
    Some(Decoded { op, next })
}

fn segment(table: &[u8], index: u8, at: usize) -> Option<Decoded>
    ensures exact { result ≡ opcodes.with_segment table.now index at }
    ensures within { IfSome result (IsWithin at table.now) }
{
    let (offset, next) = uleb_read(table, at)?;
    Some(Decoded {
        op: Op::Segment { index, offset },
        next,
    })
}

fn forward(table: &[u8], at: usize) -> Option<Decoded>
    ensures exact { result ≡ opcodes.with_distance table.now at }
    ensures within { IfSome result (IsWithin at table.now) }
{
    let (distance, next) = uleb_read(table, at)?;
    Some(Decoded {
        op: Op::Forward(distance),
        next,
    })
}

#[tactic(auto, unfolding(crate::specs::Opcodes::rebase_op))]
fn rebase_op(table: &[u8], byte: u8, next: usize) -> Option<Decoded>
    requires { next ≤ length table.now }
    ensures exact { result ≡ opcodes.rebase_op table.now byte next }
    ensures within { IfSome result (IsWithin next table.now) }
{
    let immediate = byte % 0x10;
    match byte - immediate {
        REBASE_OPCODE_DONE => only(immediate == 0, Op::Done, next),
        REBASE_OPCODE_SET_TYPE_IMM => only(immediate == REBASE_TYPE_POINTER, Op::Pointers, next),
        REBASE_OPCODE_SET_SEGMENT_AND_OFFSET_ULEB => segment(table, immediate, next),
        REBASE_OPCODE_ADD_ADDR_ULEB => forward(table, next),
        REBASE_OPCODE_ADD_ADDR_IMM_SCALED => Some(Decoded {
            op: Op::Forward(8 * u64::from(immediate)),
            next,
        }),
        REBASE_OPCODE_DO_REBASE_IMM_TIMES => Some(Decoded {
            op: Op::Rebase(immediate),
            next,
        }),
        _ => None,
    }
}

fn ordinal(table: &[u8], at: usize) -> Option<Decoded>
    ensures exact { result ≡ opcodes.with_ordinal table.now at }
    ensures within { IfSome result (IsWithin at table.now) }
{
    let (ordinal, next) = uleb_read(table, at)?;
    if ordinal >= 1 << 31 {
        return None;
    }
    Some(Decoded {
        op: Op::Ordinal(ordinal as i32),
        next,
    })
}

fn special_ordinal(immediate: u8, next: usize) -> Option<Decoded>
    ensures { result ≡ opcodes.special_ordinal immediate next }
{
    let ordinal = match immediate {
        14 => BIND_SPECIAL_DYLIB_FLAT_LOOKUP,
        13 => BIND_SPECIAL_DYLIB_WEAK_LOOKUP,
        _ => return None,
    };
    Some(Decoded {
        op: Op::Ordinal(ordinal),
        next,
    })
}

fn name(table: &[u8], flags: u8, at: usize) -> Option<Decoded>
    requires { at ≤ length table.now }
    ensures exact { result ≡ opcodes.with_name table.now flags at }
    ensures within { IfSome result (IsWithin at table.now) }
{
    let size = first_nul(&table[at..])?;
    Some(Decoded {
        op: Op::Name {
            at,
            size,
            optional: flags % 2 == BIND_SYMBOL_FLAGS_WEAK_IMPORT,
        },
        next: at + size + 1,
    })
}

fn addend(table: &[u8], at: usize) -> Option<Decoded>
    ensures exact { result ≡ opcodes.with_addend table.now at }
    ensures within { IfSome result (IsWithin at table.now) }
{
    let (addend, next) = sleb_read(table, at)?;
    Some(Decoded {
        op: Op::Addend(addend),
        next,
    })
}

#[tactic(auto, unfolding(crate::specs::Opcodes::bind_op))]
fn bind_op(table: &[u8], byte: u8, next: usize) -> Option<Decoded>
    requires { next ≤ length table.now }
    ensures exact { result ≡ opcodes.bind_op table.now byte next }
    ensures within { IfSome result (IsWithin next table.now) }
{
    let immediate = byte % 0x10;
    match byte - immediate {
        BIND_OPCODE_DONE => only(immediate == 0, Op::Done, next),
        BIND_OPCODE_SET_DYLIB_ORDINAL_IMM => Some(Decoded {
            op: Op::Ordinal(i32::from(immediate)),
            next,
        }),
        BIND_OPCODE_SET_DYLIB_ORDINAL_ULEB => ordinal(table, next),
        BIND_OPCODE_SET_DYLIB_SPECIAL_IMM => special_ordinal(immediate, next),
        BIND_OPCODE_SET_SYMBOL_TRAILING_FLAGS_IMM => name(table, immediate, next),
        BIND_OPCODE_SET_TYPE_IMM => only(immediate == BIND_TYPE_POINTER, Op::Pointers, next),
        BIND_OPCODE_SET_ADDEND_SLEB => addend(table, next),
        BIND_OPCODE_SET_SEGMENT_AND_OFFSET_ULEB => segment(table, immediate, next),
        BIND_OPCODE_ADD_ADDR_ULEB => forward(table, next),
        BIND_OPCODE_DO_BIND => Some(Decoded { op: Op::Bind, next }),
        _ => None,
    }
}

/// The opcode at a place of a table, whose bytes end where the table ends. `None` where none stands there that the table
/// may have.
#[tactic(auto, unfolding(crate::specs::Opcodes::op_at))]
pub fn op_at(kind: Table, table: &[u8], at: usize) -> Option<Decoded>
    ensures exact { result ≡ opcodes.op_at kind table.now at }
    ensures within { IfSome result (IsWithin (at + 1) table.now) }
{
    let byte = *table.get(at)?;
    match kind {
        Table::Rebases => rebase_op(table, byte, at + 1),
        Table::Binds => bind_op(table, byte, at + 1),
    }
}
