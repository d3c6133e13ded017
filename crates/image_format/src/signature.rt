ghost use Rattle.std.specs.Prelude.{◌≡◌, ◌+◌, ◌≤◌, ◌++◌, length, OnOk, OnErr};
ghost use Rattle.mo_format.specs.Fields.{ReadsBack};
ghost use Rattle.image_format.specs.Signature.{super_blob_at, super_blob_bytes, blob_index_at, blob_index_bytes, code_directory_at, code_directory_bytes};

use crate::big_fields::{big_u8_at, big_u32_at, big_u64_at, put_big_u8, put_big_u32, put_big_u64};
use std::alloc::AllocError;

/// What begins a signature; its entries follow (`cs_blobs.h`: `CS_SuperBlob`).
#[derive(Clone, Copy, Debug, PartialEq, Eq)]
pub struct SuperBlob {
    /// `CSMAGIC_EMBEDDED_SIGNATURE`, 0xfade0cc0.
    pub magic: u32,
    /// How many bytes the signature has, with these.
    pub length: u32,
    /// How many entries follow.
    pub count: u32,
}

impl SuperBlob {
    /// How many bytes it has in a file.
    pub const SIZE: usize = 12;

    /// Reads the structure whose first byte stands at the offset `at`.
    pub fn read(bytes: &[u8], at: usize) -> SuperBlob
        requires { at + Self.SIZE ≤ length bytes.now }
        ensures { result ≡ super_blob_at bytes.now at }
    {
        SuperBlob {
            magic: big_u32_at(bytes, at),
            length: big_u32_at(bytes, at + 4),
            count: big_u32_at(bytes, at + 8),
        }
    }

    /// Appends the bytes of the structure, or leaves `out` as it was.
    pub fn write(self, out: &mut Vec<u8>) -> Result<(), AllocError>
        ensures ok { OnOk result (out.new.items ≡ out.old.items ++ super_blob_bytes self) }
        ensures size { OnOk result (length out.new.items ≡ length out.old.items + Self.SIZE) }
        ensures read_back { OnOk result (ReadsBack super_blob_at out.old.items out.new.items self) }
        ensures err { OnErr result (out.new.items ≡ out.old.items) }
    {
        out.reserve(Self::SIZE)?;
        put_big_u32(out, self.magic);
        put_big_u32(out, self.length);
        put_big_u32(out, self.count);
        Ok(())
    }
}

/// An entry of a signature (`cs_blobs.h`: `CS_BlobIndex`).
#[derive(Clone, Copy, Debug, PartialEq, Eq)]
pub struct BlobIndex {
    /// What the entry is: `CSSLOT_CODEDIRECTORY`, 0, for a code directory.
    pub type_: u32,
    /// Where it stands, from the signature's first byte on.
    pub offset: u32,
}

impl BlobIndex {
    /// How many bytes it has in a file.
    pub const SIZE: usize = 8;

    /// Reads the structure whose first byte stands at the offset `at`.
    pub fn read(bytes: &[u8], at: usize) -> BlobIndex
        requires { at + Self.SIZE ≤ length bytes.now }
        ensures { result ≡ blob_index_at bytes.now at }
    {
        BlobIndex {
            type_: big_u32_at(bytes, at),
            offset: big_u32_at(bytes, at + 4),
        }
    }

    /// Appends the bytes of the structure, or leaves `out` as it was.
    pub fn write(self, out: &mut Vec<u8>) -> Result<(), AllocError>
        ensures ok { OnOk result (out.new.items ≡ out.old.items ++ blob_index_bytes self) }
        ensures size { OnOk result (length out.new.items ≡ length out.old.items + Self.SIZE) }
        ensures read_back { OnOk result (ReadsBack blob_index_at out.old.items out.new.items self) }
        ensures err { OnErr result (out.new.items ≡ out.old.items) }
    {
        out.reserve(Self::SIZE)?;
        put_big_u32(out, self.type_);
        put_big_u32(out, self.offset);
        Ok(())
    }
}

/// What a signature tells of a file; its identifier and its hashes follow (`cs_blobs.h`: `CS_CodeDirectory`).
#[derive(Clone, Copy, Debug, PartialEq, Eq)]
pub struct CodeDirectory {
    /// `CSMAGIC_CODEDIRECTORY`, 0xfade0c02.
    pub magic: u32,
    /// How many bytes it has, with the identifier and the hashes.
    pub length: u32,
    /// `CS_SUPPORTSEXECSEG`, 0x20400, where it has all of these fields.
    pub version: u32,
    /// Bits that are named `CS_`, such as `CS_ADHOC` 0x2.
    pub flags: u32,
    /// Where the hash of the first page stands, from its own first byte on.
    pub hash_offset: u32,
    /// Where the identifier stands, which ends in NUL, from its own first byte on.
    pub ident_offset: u32,
    /// How many hashes of other things stand before that of the first page.
    pub n_special_slots: u32,
    /// How many hashes of pages there are.
    pub n_code_slots: u32,
    /// How many bytes of the file the pages have together.
    pub code_limit: u32,
    /// How many bytes a hash has.
    pub hash_size: u8,
    /// How a hash is computed: `CS_HASHTYPE_SHA256`, 2.
    pub hash_type: u8,
    /// The platform; 0.
    pub platform: u8,
    /// A page has as many bytes as 2 to this power.
    pub page_size: u8,
    /// Without a meaning; 0.
    pub spare2: u32,
    /// Where a list of scattered pages stands; 0 for none.
    pub scatter_offset: u32,
    /// Where the identifier of a team stands; 0 for none.
    pub team_offset: u32,
    /// Without a meaning; 0.
    pub spare3: u32,
    /// The same as `code_limit`, where that is too narrow; else 0.
    pub code_limit64: u64,
    /// Where the segment of the code begins in the file.
    pub exec_seg_base: u64,
    /// How many bytes of the file it has.
    pub exec_seg_limit: u64,
    /// Bits that are named `CS_EXECSEG_`, such as `CS_EXECSEG_MAIN_BINARY` 0x1.
    pub exec_seg_flags: u64,
}

impl CodeDirectory {
    /// How many bytes it has in a file.
    pub const SIZE: usize = 88;

    /// Reads the structure whose first byte stands at the offset `at`.
    pub fn read(bytes: &[u8], at: usize) -> CodeDirectory
        requires { at + Self.SIZE ≤ length bytes.now }
        ensures { result ≡ code_directory_at bytes.now at }
    {
        CodeDirectory {
            magic: big_u32_at(bytes, at),
            length: big_u32_at(bytes, at + 4),
            version: big_u32_at(bytes, at + 8),
            flags: big_u32_at(bytes, at + 12),
            hash_offset: big_u32_at(bytes, at + 16),
            ident_offset: big_u32_at(bytes, at + 20),
            n_special_slots: big_u32_at(bytes, at + 24),
            n_code_slots: big_u32_at(bytes, at + 28),
            code_limit: big_u32_at(bytes, at + 32),
            hash_size: big_u8_at(bytes, at + 36),
            hash_type: big_u8_at(bytes, at + 37),
            platform: big_u8_at(bytes, at + 38),
            page_size: big_u8_at(bytes, at + 39),
            spare2: big_u32_at(bytes, at + 40),
            scatter_offset: big_u32_at(bytes, at + 44),
            team_offset: big_u32_at(bytes, at + 48),
            spare3: big_u32_at(bytes, at + 52),
            code_limit64: big_u64_at(bytes, at + 56),
            exec_seg_base: big_u64_at(bytes, at + 64),
            exec_seg_limit: big_u64_at(bytes, at + 72),
            exec_seg_flags: big_u64_at(bytes, at + 80),
        }
    }

    /// Appends the bytes of the structure, or leaves `out` as it was.
    pub fn write(self, out: &mut Vec<u8>) -> Result<(), AllocError>
        ensures ok { OnOk result (out.new.items ≡ out.old.items ++ code_directory_bytes self) }
        ensures size { OnOk result (length out.new.items ≡ length out.old.items + Self.SIZE) }
        ensures read_back { OnOk result (ReadsBack code_directory_at out.old.items out.new.items self) }
        ensures err { OnErr result (out.new.items ≡ out.old.items) }
    {
        out.reserve(Self::SIZE)?;
        put_big_u32(out, self.magic);
        put_big_u32(out, self.length);
        put_big_u32(out, self.version);
        put_big_u32(out, self.flags);
        put_big_u32(out, self.hash_offset);
        put_big_u32(out, self.ident_offset);
        put_big_u32(out, self.n_special_slots);
        put_big_u32(out, self.n_code_slots);
        put_big_u32(out, self.code_limit);
        put_big_u8(out, self.hash_size);
        put_big_u8(out, self.hash_type);
        put_big_u8(out, self.platform);
        put_big_u8(out, self.page_size);
        put_big_u32(out, self.spare2);
        put_big_u32(out, self.scatter_offset);
        put_big_u32(out, self.team_offset);
        put_big_u32(out, self.spare3);
        put_big_u64(out, self.code_limit64);
        put_big_u64(out, self.exec_seg_base);
        put_big_u64(out, self.exec_seg_limit);
        put_big_u64(out, self.exec_seg_flags);
        Ok(())
    }
}
