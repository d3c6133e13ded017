//! The section of an object and its relocations.

ghost use Rattle.std.specs.Prelude.{◌≡◌, ◌≤◌, ◌<◌, ◌*◌, ◌+◌, ◌/◌, ◌%◌, ◌++◌, ◌^◌, ℕ, OnOk, IfOk, length, map};
ghost use Rattle.std.specs.List.{flat_map, range_with_len};
ghost use Rattle.mo_bytes.specs.Number.{number_bytes};
ghost use Rattle.mo_format.specs.Relocation.{IsPackable, relocation_info_bytes};
ghost use Rattle.link_gen.specs.Calls as calls;
ghost use Rattle.link_gen.specs.Parts as parts;
ghost use Rattle.link_gen.specs.Symbols as symbols;
ghost use Rattle.link_gen.specs.Tables.{AreTables};

use crate::calls::MadeObject;
use crate::tables::Tables;
use mo_format::RelocationInfo;
use mo_format::reloc::ARM64_RELOC_BRANCH26;
use std::alloc::AllocError;

/// A call, without the distance.
pub const BL: u32 = 0x9400_0000;

/// A return to the caller.
pub const RET: u32 = 0xd65f_03c0;

#[tactic(auto, unfolding(crate::specs::Parts::instruction))]
fn instruction(made: MadeObject, k: u32) -> u32
    requires { calls.IsMade made }
    ensures { result ≡ parts.instruction made k }
{
    if k < 4 * made.function_count() && k % 4 != 3 {
        BL
    } else {
        RET
    }
}

#[tactic(auto, unfolding(mo_bytes::specs::Number::number_bytes))]
fn put_word(out: &mut Vec<u8>, word: u32) -> Result<(), AllocError>
    ensures { OnOk result (out.new.items ≡ out.old.items ++ number_bytes 4 word) }
{
    out.extend_from_slice(&word.to_le_bytes())
}

/// Appends the instructions of the object's functions and of its weak functions.
#[tactic(auto, using(crate::proofs::Lists::putting))]
pub fn put_instructions(out: &mut Vec<u8>, made: MadeObject, weaks: usize) -> Result<(), AllocError>
    requires made { calls.IsMade made }
    requires weaks { weaks ≡ length (calls.own_weaks made) }
    requires few { weaks ≤ 4 }
    ensures { OnOk result (out.new.items ≡ out.old.items ++ flat_map (number_bytes 4) (parts.instructions made)) }
{
    for k in 0..4 * made.function_count() + weaks as u32 {
        put_word(out, instruction(made, k))?;
    }
    Ok(())
}

// The number of the symbol that a call leads to.
#[tactic(auto, using(crate::proofs::CallLemmas::calling))]
fn called_number(made: MadeObject, tables: &Tables, r: u32) -> u32
    requires made { calls.IsMade made }
    requires tables { AreTables made tables.now }
    requires within { r < 3 * calls.function_count made }
    ensures { result ≡ symbols.number_of (symbols.symbols_of made) (calls.called made.count (calls.first_function made + r / 3) (r % 3)) }
{
    let function = r / 3;
    let call = r % 3;
    if call == 2 {
        let k = (made.first_function() + function) % 4;
        return tables.weak_numbers[k as usize];
    }
    let draw = 2 * function + call;
    tables.numbers[draw as usize]
}

#[tactic(auto, unfolding(crate::specs::Parts::relocation))]
fn relocation(made: MadeObject, tables: &Tables, r: u32) -> RelocationInfo
    requires made { calls.IsMade made }
    requires tables { AreTables made tables.now }
    requires within { r < 3 * calls.function_count made }
    ensures exact { result ≡ parts.relocation made r }
    ensures packable { IsPackable result }
{
    RelocationInfo {
        r_address: 16 * (r / 3) + 4 * (r % 3),
        r_symbolnum: called_number(made, tables, r),
        r_pcrel: true,
        r_length: 2,
        r_extern: true,
        r_type: ARM64_RELOC_BRANCH26,
    }
}

/// Appends the relocations of all calls.
#[tactic(auto, using(crate::proofs::Lists::putting))]
pub fn put_relocations(
    out: &mut Vec<u8>,
    made: MadeObject,
    tables: &Tables,
) -> Result<(), AllocError>
    requires made { calls.IsMade made }
    requires tables { AreTables made tables.now }
    ensures { OnOk result (out.new.items ≡ out.old.items ++ flat_map relocation_info_bytes (parts.relocations made)) }
{
    for r in 0..3 * made.function_count() {
        relocation(made, tables, r).write(out)?;
    }
    Ok(())
}
