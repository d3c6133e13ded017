ghost use Rattle.std.specs.Prelude.{◌≡◌, ◌+◌, ◌≤◌, ◌++◌, length, OnOk, OnErr};
ghost use Rattle.mo_format.specs.Fields.{ReadsBack};
ghost use Rattle.mo_format.specs.Relocation.{IsPackable, relocation_info_at, relocation_info_bytes, packed};

use crate::fields::{put_u32, u32_at};
use std::alloc::AllocError;

/// A relocation (`reloc.h`: `relocation_info`).
#[derive(Clone, Copy, Debug, PartialEq, Eq)]
pub struct RelocationInfo {
    /// The offset of the field in the section, as 32 bits in two's complement.
    pub r_address: u32,
    /// The index of a symbol from 0, or the number of a section from 1; 24 bits.
    pub r_symbolnum: u32,
    /// Whether the value counts from the field's place.
    pub r_pcrel: bool,
    /// The field has 2 to this power bytes; from 0 to 3.
    pub r_length: u8,
    /// Whether `r_symbolnum` is that of a symbol.
    pub r_extern: bool,
    /// The machine's kind of relocation, from 0 to 15 (`arm64/reloc.h`: `reloc_type_arm64`).
    pub r_type: u8,
}

// The bit fields as one number, which `reloc.h` leaves to the compiler: the first field has the low bits.
fn pack(info: RelocationInfo) -> u32
    requires { IsPackable info }
    ensures { result ≡ packed info }
{
    info.r_symbolnum
        + 0x100_0000 * u32::from(info.r_pcrel)
        + 0x200_0000 * u32::from(info.r_length)
        + 0x800_0000 * u32::from(info.r_extern)
        + 0x1000_0000 * u32::from(info.r_type)
}

impl RelocationInfo {
    /// How many bytes it has in a file.
    pub const SIZE: usize = 8;

    /// Reads the relocation whose first byte stands at the offset `at`.
    #[tactic(auto, unfolding(crate::specs::Relocation::unpacked))]
    pub fn read(bytes: &[u8], at: usize) -> RelocationInfo
        requires { at + Self.SIZE ≤ length bytes.now }
        ensures exact { result ≡ relocation_info_at bytes.now at }
        ensures packable { IsPackable result }
    {
        let word = u32_at(bytes, at + 4);
        RelocationInfo {
            r_address: u32_at(bytes, at),
            r_symbolnum: word % 0x100_0000,
            r_pcrel: word / 0x100_0000 % 2 == 1,
            r_length: (word / 0x200_0000 % 4) as u8,
            r_extern: word / 0x800_0000 % 2 == 1,
            r_type: (word / 0x1000_0000) as u8,
        }
    }

    /// Appends the bytes of the relocation, or leaves `out` as it was.
    pub fn write(self, out: &mut Vec<u8>) -> Result<(), AllocError>
        requires { IsPackable self }
        ensures ok { OnOk result (out.new.items ≡ out.old.items ++ relocation_info_bytes self) }
        ensures size { OnOk result (length out.new.items ≡ length out.old.items + Self.SIZE) }
        ensures read_back { OnOk result (ReadsBack relocation_info_at out.old.items out.new.items self) }
        ensures err { OnErr result (out.new.items ≡ out.old.items) }
    {
        out.reserve(Self::SIZE)?;
        put_u32(out, self.r_address);
        put_u32(out, pack(self));
        Ok(())
    }
}
