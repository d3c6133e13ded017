ghost use Rattle.std.specs.Prelude.{◌≡◌, ◌+◌, ◌≤◌, ◌++◌, length, OnOk, OnErr};
ghost use Rattle.mo_format.specs.Fields.{ReadsBack};
ghost use Rattle.mo_format.specs.Linkedit.{linkedit_data_command_at, linkedit_data_command_bytes, dysymtab_command_at, dysymtab_command_bytes};

use crate::fields::{put_u32, u32_at};
use std::alloc::AllocError;

/// Where a part of `__LINKEDIT` stands in the file (`loader.h`: `linkedit_data_command`).
#[derive(Clone, Copy, Debug, PartialEq, Eq)]
pub struct LinkeditDataCommand {
    /// `LC_DYLD_CHAINED_FIXUPS`, `LC_DYLD_EXPORTS_TRIE` or `LC_CODE_SIGNATURE`.
    pub cmd: u32,
    /// In bytes: 16.
    pub cmdsize: u32,
    /// The offset of the part in the file.
    pub dataoff: u32,
    /// How many bytes it has.
    pub datasize: u32,
}

impl LinkeditDataCommand {
    /// How many bytes it has in a file.
    pub const SIZE: usize = 16;

    /// Reads the command whose first byte stands at the offset `at`.
    pub fn read(bytes: &[u8], at: usize) -> LinkeditDataCommand
        requires { at + Self.SIZE ≤ length bytes.now }
        ensures { result ≡ linkedit_data_command_at bytes.now at }
    {
        LinkeditDataCommand {
            cmd: u32_at(bytes, at),
            cmdsize: u32_at(bytes, at + 4),
            dataoff: u32_at(bytes, at + 8),
            datasize: u32_at(bytes, at + 12),
        }
    }

    /// Appends the bytes of the command, or leaves `out` as it was.
    pub fn write(self, out: &mut Vec<u8>) -> Result<(), AllocError>
        ensures ok { OnOk result (out.new.items ≡ out.old.items ++ linkedit_data_command_bytes self) }
        ensures size { OnOk result (length out.new.items ≡ length out.old.items + Self.SIZE) }
        ensures read_back { OnOk result (ReadsBack linkedit_data_command_at out.old.items out.new.items self) }
        ensures err { OnErr result (out.new.items ≡ out.old.items) }
    {
        out.reserve(Self::SIZE)?;
        put_u32(out, self.cmd);
        put_u32(out, self.cmdsize);
        put_u32(out, self.dataoff);
        put_u32(out, self.datasize);
        Ok(())
    }
}

/// The ranges of the symbols, and where the table of indirect symbols stands in the file
/// (`loader.h`: `dysymtab_command`).
#[derive(Clone, Copy, Debug, PartialEq, Eq)]
pub struct DysymtabCommand {
    /// `LC_DYSYMTAB`, 0xb.
    pub cmd: u32,
    /// In bytes: 80.
    pub cmdsize: u32,
    /// The index of the first local symbol.
    pub ilocalsym: u32,
    /// How many local symbols there are.
    pub nlocalsym: u32,
    /// The index of the first external symbol with a definition.
    pub iextdefsym: u32,
    /// How many external symbols have a definition.
    pub nextdefsym: u32,
    /// The index of the first symbol without a definition.
    pub iundefsym: u32,
    /// How many symbols have no definition.
    pub nundefsym: u32,
    /// The offset of the table of contents in the file; of libraries before 2001.
    pub tocoff: u32,
    /// How many entries it has.
    pub ntoc: u32,
    /// The offset of the table of modules in the file; of such libraries.
    pub modtaboff: u32,
    /// How many entries it has.
    pub nmodtab: u32,
    /// The offset of the table of referenced symbols in the file; of such libraries.
    pub extrefsymoff: u32,
    /// How many entries it has.
    pub nextrefsyms: u32,
    /// The offset of the table of indirect symbols in the file, of 4 bytes an entry.
    pub indirectsymoff: u32,
    /// How many entries it has.
    pub nindirectsyms: u32,
    /// The offset of the external relocations in the file; of images without fixups.
    pub extreloff: u32,
    /// How many of these there are.
    pub nextrel: u32,
    /// The offset of the local relocations in the file; of such images.
    pub locreloff: u32,
    /// How many of these there are.
    pub nlocrel: u32,
}

impl DysymtabCommand {
    /// How many bytes it has in a file.
    pub const SIZE: usize = 80;

    /// Reads the command whose first byte stands at the offset `at`.
    pub fn read(bytes: &[u8], at: usize) -> DysymtabCommand
        requires { at + Self.SIZE ≤ length bytes.now }
        ensures { result ≡ dysymtab_command_at bytes.now at }
    {
        DysymtabCommand {
            cmd: u32_at(bytes, at),
            cmdsize: u32_at(bytes, at + 4),
            ilocalsym: u32_at(bytes, at + 8),
            nlocalsym: u32_at(bytes, at + 12),
            iextdefsym: u32_at(bytes, at + 16),
            nextdefsym: u32_at(bytes, at + 20),
            iundefsym: u32_at(bytes, at + 24),
            nundefsym: u32_at(bytes, at + 28),
            tocoff: u32_at(bytes, at + 32),
            ntoc: u32_at(bytes, at + 36),
            modtaboff: u32_at(bytes, at + 40),
            nmodtab: u32_at(bytes, at + 44),
            extrefsymoff: u32_at(bytes, at + 48),
            nextrefsyms: u32_at(bytes, at + 52),
            indirectsymoff: u32_at(bytes, at + 56),
            nindirectsyms: u32_at(bytes, at + 60),
            extreloff: u32_at(bytes, at + 64),
            nextrel: u32_at(bytes, at + 68),
            locreloff: u32_at(bytes, at + 72),
            nlocrel: u32_at(bytes, at + 76),
        }
    }

    /// Appends the bytes of the command, or leaves `out` as it was.
    pub fn write(self, out: &mut Vec<u8>) -> Result<(), AllocError>
        ensures ok { OnOk result (out.new.items ≡ out.old.items ++ dysymtab_command_bytes self) }
        ensures size { OnOk result (length out.new.items ≡ length out.old.items + Self.SIZE) }
        ensures read_back { OnOk result (ReadsBack dysymtab_command_at out.old.items out.new.items self) }
        ensures err { OnErr result (out.new.items ≡ out.old.items) }
    {
        out.reserve(Self::SIZE)?;
        put_u32(out, self.cmd);
        put_u32(out, self.cmdsize);
        put_u32(out, self.ilocalsym);
        put_u32(out, self.nlocalsym);
        put_u32(out, self.iextdefsym);
        put_u32(out, self.nextdefsym);
        put_u32(out, self.iundefsym);
        put_u32(out, self.nundefsym);
        put_u32(out, self.tocoff);
        put_u32(out, self.ntoc);
        put_u32(out, self.modtaboff);
        put_u32(out, self.nmodtab);
        put_u32(out, self.extrefsymoff);
        put_u32(out, self.nextrefsyms);
        put_u32(out, self.indirectsymoff);
        put_u32(out, self.nindirectsyms);
        put_u32(out, self.extreloff);
        put_u32(out, self.nextrel);
        put_u32(out, self.locreloff);
        put_u32(out, self.nlocrel);
        Ok(())
    }
}
