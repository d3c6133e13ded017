ghost use Rattle.std.specs.Prelude.{◌≡◌, ◌+◌, ◌≤◌, ◌++◌, length, OnOk, OnErr};
ghost use Rattle.mo_format.specs.Fields.{ReadsBack};
ghost use Rattle.mo_format.specs.Symbol.{symtab_command_at, symtab_command_bytes, nlist_at, nlist_bytes};

use crate::fields::{put_u8, put_u16, put_u32, put_u64, u8_at, u16_at, u32_at, u64_at};
use std::alloc::AllocError;

/// Where the symbols and their names stand in the file (`loader.h`: `symtab_command`).
#[derive(Clone, Copy, Debug, PartialEq, Eq)]
pub struct SymtabCommand {
    /// `LC_SYMTAB`, 0x2.
    pub cmd: u32,
    /// In bytes: 24.
    pub cmdsize: u32,
    /// The offset of the symbols in the file.
    pub symoff: u32,
    /// How many symbols there are.
    pub nsyms: u32,
    /// The offset of the strings in the file.
    pub stroff: u32,
    /// How many bytes the strings have together.
    pub strsize: u32,
}

impl SymtabCommand {
    /// How many bytes it has in a file.
    pub const SIZE: usize = 24;

    /// Reads the command whose first byte stands at the offset `at`.
    pub fn read(bytes: &[u8], at: usize) -> SymtabCommand
        requires { at + Self.SIZE ≤ length bytes.now }
        ensures { result ≡ symtab_command_at bytes.now at }
    {
        SymtabCommand {
            cmd: u32_at(bytes, at),
            cmdsize: u32_at(bytes, at + 4),
            symoff: u32_at(bytes, at + 8),
            nsyms: u32_at(bytes, at + 12),
            stroff: u32_at(bytes, at + 16),
            strsize: u32_at(bytes, at + 20),
        }
    }

    /// Appends the bytes of the command, or leaves `out` as it was.
    pub fn write(self, out: &mut Vec<u8>) -> Result<(), AllocError>
        ensures ok { OnOk result (out.new.items ≡ out.old.items ++ symtab_command_bytes self) }
        ensures size { OnOk result (length out.new.items ≡ length out.old.items + Self.SIZE) }
        ensures read_back { OnOk result (ReadsBack symtab_command_at out.old.items out.new.items self) }
        ensures err { OnErr result (out.new.items ≡ out.old.items) }
    {
        out.reserve(Self::SIZE)?;
        put_u32(out, self.cmd);
        put_u32(out, self.cmdsize);
        put_u32(out, self.symoff);
        put_u32(out, self.nsyms);
        put_u32(out, self.stroff);
        put_u32(out, self.strsize);
        Ok(())
    }
}

/// A symbol (`nlist.h`: `nlist_64`).
#[derive(Clone, Copy, Debug, PartialEq, Eq)]
pub struct Nlist {
    /// The offset of the name in the strings.
    pub n_strx: u32,
    /// `N_STAB` 0xe0, `N_PEXT` 0x10, `N_TYPE` 0x0e, `N_EXT` 0x01.
    pub n_type: u8,
    /// The number of the symbol's section, counted from 1, or `NO_SECT` 0.
    pub n_sect: u8,
    /// Bits such as `N_WEAK_DEF` 0x80; for an import of an image, the library's ordinal in the upper 8.
    pub n_desc: u16,
    /// The address; for a common symbol, its size in bytes.
    pub n_value: u64,
}

impl Nlist {
    /// How many bytes it has in a file.
    pub const SIZE: usize = 16;

    /// Reads the symbol whose first byte stands at the offset `at`.
    pub fn read(bytes: &[u8], at: usize) -> Nlist
        requires { at + Self.SIZE ≤ length bytes.now }
        ensures { result ≡ nlist_at bytes.now at }
    {
        Nlist {
            n_strx: u32_at(bytes, at),
            n_type: u8_at(bytes, at + 4),
            n_sect: u8_at(bytes, at + 5),
            n_desc: u16_at(bytes, at + 6),
            n_value: u64_at(bytes, at + 8),
        }
    }

    /// Appends the bytes of the symbol, or leaves `out` as it was.
    pub fn write(self, out: &mut Vec<u8>) -> Result<(), AllocError>
        ensures ok { OnOk result (out.new.items ≡ out.old.items ++ nlist_bytes self) }
        ensures size { OnOk result (length out.new.items ≡ length out.old.items + Self.SIZE) }
        ensures read_back { OnOk result (ReadsBack nlist_at out.old.items out.new.items self) }
        ensures err { OnErr result (out.new.items ≡ out.old.items) }
    {
        out.reserve(Self::SIZE)?;
        put_u32(out, self.n_strx);
        put_u8(out, self.n_type);
        put_u8(out, self.n_sect);
        put_u16(out, self.n_desc);
        put_u64(out, self.n_value);
        Ok(())
    }
}
