ghost use Rattle.std.specs.Prelude.{◌≡◌, ◌+◌, ◌≤◌, ◌++◌, length, OnOk, OnErr};
ghost use Rattle.image_format.specs.ChainedImport.{chained_import_at, chained_import_bytes, import_word, IsImportPackable};
ghost use Rattle.image_format.specs.ChainedImport.{chained_import_addend64_at, chained_import_addend64_bytes, wide_import_word, IsWidePackable};
ghost use Rattle.mo_format.specs.Fields.{ReadsBack};

use mo_format::fields::{put_u32, put_u64, u32_at, u64_at};
use std::alloc::AllocError;

/// An import of the format `DYLD_CHAINED_IMPORT` (`fixup-chains.h`: `dyld_chained_import`).
#[derive(Clone, Copy, Debug, PartialEq, Eq)]
pub struct ChainedImport {
    /// The library's number, or a special number below 0 as 8 bits in two's complement.
    pub lib_ordinal: u8,
    /// Whether the name may be missing.
    pub weak_import: bool,
    /// The offset of the name among the names; 23 bits.
    pub name_offset: u32,
}

// The bit fields as one number: the first field has the low bits.
fn pack(import: ChainedImport) -> u32
    requires { IsImportPackable import }
    ensures { result ≡ import_word import }
{
    u32::from(import.lib_ordinal)
        + 0x100 * u32::from(import.weak_import)
        + 0x200 * import.name_offset
}

impl ChainedImport {
    /// How many bytes it has in a file.
    pub const SIZE: usize = 4;

    /// Reads the import whose first byte stands at the offset `at`.
    #[tactic(auto, unfolding(crate::specs::ChainedImport::import_of))]
    pub fn read(bytes: &[u8], at: usize) -> ChainedImport
        requires { at + Self.SIZE ≤ length bytes.now }
        ensures exact { result ≡ chained_import_at bytes.now at }
        ensures packable { IsImportPackable result }
    {
        let word = u32_at(bytes, at);
        ChainedImport {
            lib_ordinal: (word % 0x100) as u8,
            weak_import: word / 0x100 % 2 == 1,
            name_offset: word / 0x200,
        }
    }

    /// Appends the bytes of the import, or leaves `out` as it was.
    pub fn write(self, out: &mut Vec<u8>) -> Result<(), AllocError>
        requires { IsImportPackable self }
        ensures ok { OnOk result (out.new.items ≡ out.old.items ++ chained_import_bytes self) }
        ensures size { OnOk result (length out.new.items ≡ length out.old.items + Self.SIZE) }
        ensures read_back { OnOk result (ReadsBack chained_import_at out.old.items out.new.items self) }
        ensures err { OnErr result (out.new.items ≡ out.old.items) }
    {
        out.reserve(Self::SIZE)?;
        put_u32(out, pack(self));
        Ok(())
    }
}

/// An import of the format `DYLD_CHAINED_IMPORT_ADDEND64` (`fixup-chains.h`: `dyld_chained_import_addend64`).
#[derive(Clone, Copy, Debug, PartialEq, Eq)]
pub struct ChainedImportAddend64 {
    /// The library's number, or a special number below 0 as 16 bits in two's complement.
    pub lib_ordinal: u16,
    /// Whether the name may be missing.
    pub weak_import: bool,
    /// 0; 15 bits.
    pub reserved: u16,
    /// The offset of the name among the names.
    pub name_offset: u32,
    /// What is added to each pointer to the import, as 64 bits in two's complement.
    pub addend: u64,
}

fn wide_pack(import: ChainedImportAddend64) -> u64
    requires { IsWidePackable import }
    ensures { result ≡ wide_import_word import }
{
    u64::from(import.lib_ordinal)
        + 0x1_0000 * u64::from(import.weak_import)
        + 0x2_0000 * u64::from(import.reserved)
        + 0x1_0000_0000 * u64::from(import.name_offset)
}

impl ChainedImportAddend64 {
    /// How many bytes it has in a file.
    pub const SIZE: usize = 16;

    /// Reads the import whose first byte stands at the offset `at`.
    #[tactic(auto, unfolding(crate::specs::ChainedImport::wide_import_of))]
    pub fn read(bytes: &[u8], at: usize) -> ChainedImportAddend64
        requires { at + Self.SIZE ≤ length bytes.now }
        ensures exact { result ≡ chained_import_addend64_at bytes.now at }
        ensures packable { IsWidePackable result }
    {
        let word = u64_at(bytes, at);
        ChainedImportAddend64 {
            lib_ordinal: (word % 0x1_0000) as u16,
            weak_import: word / 0x1_0000 % 2 == 1,
            reserved: (word / 0x2_0000 % 0x8000) as u16,
            name_offset: (word / 0x1_0000_0000) as u32,
            addend: u64_at(bytes, at + 8),
        }
    }

    /// Appends the bytes of the import, or leaves `out` as it was.
    pub fn write(self, out: &mut Vec<u8>) -> Result<(), AllocError>
        requires { IsWidePackable self }
        ensures ok { OnOk result (out.new.items ≡ out.old.items ++ chained_import_addend64_bytes self) }
        ensures size { OnOk result (length out.new.items ≡ length out.old.items + Self.SIZE) }
        ensures read_back { OnOk result (ReadsBack chained_import_addend64_at out.old.items out.new.items self) }
        ensures err { OnErr result (out.new.items ≡ out.old.items) }
    {
        out.reserve(Self::SIZE)?;
        put_u64(out, wide_pack(self));
        put_u64(out, self.addend);
        Ok(())
    }
}
