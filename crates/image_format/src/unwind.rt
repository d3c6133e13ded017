ghost use Rattle.std.specs.Prelude.{◌≡◌, ◌+◌, ◌≤◌, ◌<◌, ◌^◌, ◌++◌, length, OnOk, OnErr};
ghost use Rattle.mo_format.specs.Fields.{ReadsBack};
ghost use Rattle.image_format.specs.Unwind.{unwind_info_header_at, unwind_info_header_bytes, unwind_index_entry_at, unwind_index_entry_bytes};
ghost use Rattle.image_format.specs.Unwind.{unwind_lsda_entry_at, unwind_lsda_entry_bytes, regular_page_header_at, regular_page_header_bytes};
ghost use Rattle.image_format.specs.Unwind.{regular_page_entry_at, regular_page_entry_bytes, compressed_page_header_at, compressed_page_header_bytes};
ghost use Rattle.image_format.specs.Unwind.{compressed_page_entry_at, compressed_page_entry_bytes, packed_row};

use mo_format::fields::{put_u16, put_u32, u16_at, u32_at};
use std::alloc::AllocError;

/// How a section of compact unwind begins (`compact_unwind_encoding.h`: `unwind_info_section_header`).
#[derive(Clone, Copy, Debug, PartialEq, Eq)]
pub struct UnwindInfoHeader {
    /// `UNWIND_SECTION_VERSION`, 1.
    pub version: u32,
    /// The offset of the common encodings in the section, of 4 bytes each.
    pub common_encodings_offset: u32,
    /// How many common encodings there are.
    pub common_encodings_count: u32,
    /// The offset of the personalities in the section, each 4 bytes: the image offset of a slot.
    pub personalities_offset: u32,
    /// How many personalities there are.
    pub personalities_count: u32,
    /// The offset of the index in the section.
    pub index_offset: u32,
    /// How many entries the index has, the last of which only ends the others.
    pub index_count: u32,
}

impl UnwindInfoHeader {
    /// How many bytes it has in a file.
    pub const SIZE: usize = 28;

    /// Reads the header whose first byte stands at the offset `at`.
    pub fn read(bytes: &[u8], at: usize) -> UnwindInfoHeader
        requires { at + Self.SIZE ≤ length bytes.now }
        ensures { result ≡ unwind_info_header_at bytes.now at }
    {
        UnwindInfoHeader {
            version: u32_at(bytes, at),
            common_encodings_offset: u32_at(bytes, at + 4),
            common_encodings_count: u32_at(bytes, at + 8),
            personalities_offset: u32_at(bytes, at + 12),
            personalities_count: u32_at(bytes, at + 16),
            index_offset: u32_at(bytes, at + 20),
            index_count: u32_at(bytes, at + 24),
        }
    }

    /// Appends the bytes of the header, or leaves `out` as it was.
    pub fn write(self, out: &mut Vec<u8>) -> Result<(), AllocError>
        ensures ok { OnOk result (out.new.items ≡ out.old.items ++ unwind_info_header_bytes self) }
        ensures size { OnOk result (length out.new.items ≡ length out.old.items + Self.SIZE) }
        ensures read_back { OnOk result (ReadsBack unwind_info_header_at out.old.items out.new.items self) }
        ensures err { OnErr result (out.new.items ≡ out.old.items) }
    {
        out.reserve(Self::SIZE)?;
        put_u32(out, self.version);
        put_u32(out, self.common_encodings_offset);
        put_u32(out, self.common_encodings_count);
        put_u32(out, self.personalities_offset);
        put_u32(out, self.personalities_count);
        put_u32(out, self.index_offset);
        put_u32(out, self.index_count);
        Ok(())
    }
}

/// An entry of the index: where the rows of a page stand (`compact_unwind_encoding.h`: `unwind_info_section_header_index_entry`).
#[derive(Clone, Copy, Debug, PartialEq, Eq)]
pub struct UnwindIndexEntry {
    /// The image offset of the first function of the page; in the last entry, where the functions end.
    pub function_offset: u32,
    /// The offset of the page in the section; 0 in the last entry.
    pub page_offset: u32,
    /// The offset in the section of the first row on language-specific data of the page; in the last entry, where these rows end.
    pub lsda_offset: u32,
}

impl UnwindIndexEntry {
    /// How many bytes it has in a file.
    pub const SIZE: usize = 12;

    /// Reads the entry whose first byte stands at the offset `at`.
    pub fn read(bytes: &[u8], at: usize) -> UnwindIndexEntry
        requires { at + Self.SIZE ≤ length bytes.now }
        ensures { result ≡ unwind_index_entry_at bytes.now at }
    {
        UnwindIndexEntry {
            function_offset: u32_at(bytes, at),
            page_offset: u32_at(bytes, at + 4),
            lsda_offset: u32_at(bytes, at + 8),
        }
    }

    /// Appends the bytes of the entry, or leaves `out` as it was.
    pub fn write(self, out: &mut Vec<u8>) -> Result<(), AllocError>
        ensures ok { OnOk result (out.new.items ≡ out.old.items ++ unwind_index_entry_bytes self) }
        ensures size { OnOk result (length out.new.items ≡ length out.old.items + Self.SIZE) }
        ensures read_back { OnOk result (ReadsBack unwind_index_entry_at out.old.items out.new.items self) }
        ensures err { OnErr result (out.new.items ≡ out.old.items) }
    {
        out.reserve(Self::SIZE)?;
        put_u32(out, self.function_offset);
        put_u32(out, self.page_offset);
        put_u32(out, self.lsda_offset);
        Ok(())
    }
}

/// A function that has language-specific data (`compact_unwind_encoding.h`: `unwind_info_section_header_lsda_index_entry`).
#[derive(Clone, Copy, Debug, PartialEq, Eq)]
pub struct UnwindLsdaEntry {
    /// The image offset of the function.
    pub function_offset: u32,
    /// The image offset of its data.
    pub lsda_offset: u32,
}

impl UnwindLsdaEntry {
    /// How many bytes it has in a file.
    pub const SIZE: usize = 8;

    /// Reads the row whose first byte stands at the offset `at`.
    pub fn read(bytes: &[u8], at: usize) -> UnwindLsdaEntry
        requires { at + Self.SIZE ≤ length bytes.now }
        ensures { result ≡ unwind_lsda_entry_at bytes.now at }
    {
        UnwindLsdaEntry {
            function_offset: u32_at(bytes, at),
            lsda_offset: u32_at(bytes, at + 4),
        }
    }

    /// Appends the bytes of the row, or leaves `out` as it was.
    pub fn write(self, out: &mut Vec<u8>) -> Result<(), AllocError>
        ensures ok { OnOk result (out.new.items ≡ out.old.items ++ unwind_lsda_entry_bytes self) }
        ensures size { OnOk result (length out.new.items ≡ length out.old.items + Self.SIZE) }
        ensures read_back { OnOk result (ReadsBack unwind_lsda_entry_at out.old.items out.new.items self) }
        ensures err { OnErr result (out.new.items ≡ out.old.items) }
    {
        out.reserve(Self::SIZE)?;
        put_u32(out, self.function_offset);
        put_u32(out, self.lsda_offset);
        Ok(())
    }
}

/// How a page of whole rows begins (`compact_unwind_encoding.h`: `unwind_info_regular_second_level_page_header`).
#[derive(Clone, Copy, Debug, PartialEq, Eq)]
pub struct RegularPageHeader {
    /// `UNWIND_SECOND_LEVEL_REGULAR`, 2.
    pub kind: u32,
    /// The offset of the rows in the page.
    pub entry_offset: u16,
    /// How many rows there are.
    pub entry_count: u16,
}

impl RegularPageHeader {
    /// How many bytes it has in a file.
    pub const SIZE: usize = 8;

    /// Reads the header whose first byte stands at the offset `at`.
    pub fn read(bytes: &[u8], at: usize) -> RegularPageHeader
        requires { at + Self.SIZE ≤ length bytes.now }
        ensures { result ≡ regular_page_header_at bytes.now at }
    {
        RegularPageHeader {
            kind: u32_at(bytes, at),
            entry_offset: u16_at(bytes, at + 4),
            entry_count: u16_at(bytes, at + 6),
        }
    }

    /// Appends the bytes of the header, or leaves `out` as it was.
    pub fn write(self, out: &mut Vec<u8>) -> Result<(), AllocError>
        ensures ok { OnOk result (out.new.items ≡ out.old.items ++ regular_page_header_bytes self) }
        ensures size { OnOk result (length out.new.items ≡ length out.old.items + Self.SIZE) }
        ensures read_back { OnOk result (ReadsBack regular_page_header_at out.old.items out.new.items self) }
        ensures err { OnErr result (out.new.items ≡ out.old.items) }
    {
        out.reserve(Self::SIZE)?;
        put_u32(out, self.kind);
        put_u16(out, self.entry_offset);
        put_u16(out, self.entry_count);
        Ok(())
    }
}

/// A row of such a page (`compact_unwind_encoding.h`: `unwind_info_regular_second_level_entry`).
#[derive(Clone, Copy, Debug, PartialEq, Eq)]
pub struct RegularPageEntry {
    /// The image offset of the function.
    pub function_offset: u32,
    /// How its frame is unwound.
    pub encoding: u32,
}

impl RegularPageEntry {
    /// How many bytes it has in a file.
    pub const SIZE: usize = 8;

    /// Reads the row whose first byte stands at the offset `at`.
    pub fn read(bytes: &[u8], at: usize) -> RegularPageEntry
        requires { at + Self.SIZE ≤ length bytes.now }
        ensures { result ≡ regular_page_entry_at bytes.now at }
    {
        RegularPageEntry {
            function_offset: u32_at(bytes, at),
            encoding: u32_at(bytes, at + 4),
        }
    }

    /// Appends the bytes of the row, or leaves `out` as it was.
    pub fn write(self, out: &mut Vec<u8>) -> Result<(), AllocError>
        ensures ok { OnOk result (out.new.items ≡ out.old.items ++ regular_page_entry_bytes self) }
        ensures size { OnOk result (length out.new.items ≡ length out.old.items + Self.SIZE) }
        ensures read_back { OnOk result (ReadsBack regular_page_entry_at out.old.items out.new.items self) }
        ensures err { OnErr result (out.new.items ≡ out.old.items) }
    {
        out.reserve(Self::SIZE)?;
        put_u32(out, self.function_offset);
        put_u32(out, self.encoding);
        Ok(())
    }
}

/// How a page of rows of 4 bytes begins (`compact_unwind_encoding.h`: `unwind_info_compressed_second_level_page_header`).
#[derive(Clone, Copy, Debug, PartialEq, Eq)]
pub struct CompressedPageHeader {
    /// `UNWIND_SECOND_LEVEL_COMPRESSED`, 3.
    pub kind: u32,
    /// The offset of the rows in the page.
    pub entry_offset: u16,
    /// How many rows there are.
    pub entry_count: u16,
    /// The offset of the encodings in the page, of 4 bytes each.
    pub encodings_offset: u16,
    /// How many encodings the page has.
    pub encodings_count: u16,
}

impl CompressedPageHeader {
    /// How many bytes it has in a file.
    pub const SIZE: usize = 12;

    /// Reads the header whose first byte stands at the offset `at`.
    pub fn read(bytes: &[u8], at: usize) -> CompressedPageHeader
        requires { at + Self.SIZE ≤ length bytes.now }
        ensures { result ≡ compressed_page_header_at bytes.now at }
    {
        CompressedPageHeader {
            kind: u32_at(bytes, at),
            entry_offset: u16_at(bytes, at + 4),
            entry_count: u16_at(bytes, at + 6),
            encodings_offset: u16_at(bytes, at + 8),
            encodings_count: u16_at(bytes, at + 10),
        }
    }

    /// Appends the bytes of the header, or leaves `out` as it was.
    pub fn write(self, out: &mut Vec<u8>) -> Result<(), AllocError>
        ensures ok { OnOk result (out.new.items ≡ out.old.items ++ compressed_page_header_bytes self) }
        ensures size { OnOk result (length out.new.items ≡ length out.old.items + Self.SIZE) }
        ensures read_back { OnOk result (ReadsBack compressed_page_header_at out.old.items out.new.items self) }
        ensures err { OnErr result (out.new.items ≡ out.old.items) }
    {
        out.reserve(Self::SIZE)?;
        put_u32(out, self.kind);
        put_u16(out, self.entry_offset);
        put_u16(out, self.entry_count);
        put_u16(out, self.encodings_offset);
        put_u16(out, self.encodings_count);
        Ok(())
    }
}

/// A row of such a page, in 4 bytes (`compact_unwind_encoding.h`: `UNWIND_INFO_COMPRESSED_ENTRY_FUNC_OFFSET`,
/// `UNWIND_INFO_COMPRESSED_ENTRY_ENCODING_INDEX`).
#[derive(Clone, Copy, Debug, PartialEq, Eq)]
pub struct CompressedPageEntry {
    /// How far the function is from the first function of the page; 24 bits.
    pub function_offset: u32,
    /// The index of its encoding, the common encodings first.
    pub encoding_index: u8,
}

// The distance has the low 24 bits.
fn pack_row(entry: CompressedPageEntry) -> u32
    requires { entry.function_offset < 2 ^ 24 }
    ensures { result ≡ packed_row entry }
{
    entry.function_offset + 0x100_0000 * u32::from(entry.encoding_index)
}

impl CompressedPageEntry {
    /// How many bytes it has in a file.
    pub const SIZE: usize = 4;

    /// Reads the row whose first byte stands at the offset `at`.
    #[tactic(auto, unfolding(crate::specs::Unwind::unpacked_row))]
    pub fn read(bytes: &[u8], at: usize) -> CompressedPageEntry
        requires { at + Self.SIZE ≤ length bytes.now }
        ensures exact { result ≡ compressed_page_entry_at bytes.now at }
        ensures packable { result.function_offset < 2 ^ 24 }
    {
        let word = u32_at(bytes, at);
        CompressedPageEntry {
            function_offset: word % 0x100_0000,
            encoding_index: (word / 0x100_0000) as u8,
        }
    }

    /// Appends the bytes of the row, or leaves `out` as it was.
    pub fn write(self, out: &mut Vec<u8>) -> Result<(), AllocError>
        requires { self.function_offset < 2 ^ 24 }
        ensures ok { OnOk result (out.new.items ≡ out.old.items ++ compressed_page_entry_bytes self) }
        ensures size { OnOk result (length out.new.items ≡ length out.old.items + Self.SIZE) }
        ensures read_back { OnOk result (ReadsBack compressed_page_entry_at out.old.items out.new.items self) }
        ensures err { OnErr result (out.new.items ≡ out.old.items) }
    {
        out.reserve(Self::SIZE)?;
        put_u32(out, pack_row(self));
        Ok(())
    }
}
