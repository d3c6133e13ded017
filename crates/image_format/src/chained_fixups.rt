ghost use Rattle.std.specs.Prelude.{◌≡◌, ◌+◌, ◌≤◌, ◌++◌, length, OnOk, OnErr};
ghost use Rattle.image_format.specs.ChainedFixups.{chained_fixups_header_at, chained_fixups_header_bytes};
ghost use Rattle.image_format.specs.ChainedFixups.{chained_starts_in_image_at, chained_starts_in_image_bytes};
ghost use Rattle.image_format.specs.ChainedFixups.{chained_starts_in_segment_at, chained_starts_in_segment_bytes};
ghost use Rattle.mo_format.specs.Fields.{ReadsBack};

use mo_format::fields::{put_u16, put_u32, put_u64, u16_at, u32_at, u64_at};
use std::alloc::AllocError;

/// How the part of the fixups begins (`fixup-chains.h`: `dyld_chained_fixups_header`). Offsets count from its first
/// byte.
#[derive(Clone, Copy, Debug, PartialEq, Eq)]
pub struct ChainedFixupsHeader {
    /// 0.
    pub fixups_version: u32,
    /// The offset of the starts in the image.
    pub starts_offset: u32,
    /// The offset of the imports.
    pub imports_offset: u32,
    /// The offset of the names of the imports.
    pub symbols_offset: u32,
    /// How many imports there are.
    pub imports_count: u32,
    /// `DYLD_CHAINED_IMPORT` or another form of an import.
    pub imports_format: u32,
    /// 0: the names aren't compressed.
    pub symbols_format: u32,
}

impl ChainedFixupsHeader {
    /// How many bytes it has in a file.
    pub const SIZE: usize = 28;

    /// Reads the header whose first byte stands at the offset `at`.
    pub fn read(bytes: &[u8], at: usize) -> ChainedFixupsHeader
        requires { at + Self.SIZE ≤ length bytes.now }
        ensures { result ≡ chained_fixups_header_at bytes.now at }
    {
        ChainedFixupsHeader {
            fixups_version: u32_at(bytes, at),
            starts_offset: u32_at(bytes, at + 4),
            imports_offset: u32_at(bytes, at + 8),
            symbols_offset: u32_at(bytes, at + 12),
            imports_count: u32_at(bytes, at + 16),
            imports_format: u32_at(bytes, at + 20),
            symbols_format: u32_at(bytes, at + 24),
        }
    }

    /// Appends the bytes of the header, or leaves `out` as it was.
    pub fn write(self, out: &mut Vec<u8>) -> Result<(), AllocError>
        ensures ok { OnOk result (out.new.items ≡ out.old.items ++ chained_fixups_header_bytes self) }
        ensures size { OnOk result (length out.new.items ≡ length out.old.items + Self.SIZE) }
        ensures read_back { OnOk result (ReadsBack chained_fixups_header_at out.old.items out.new.items self) }
        ensures err { OnErr result (out.new.items ≡ out.old.items) }
    {
        out.reserve(Self::SIZE)?;
        put_u32(out, self.fixups_version);
        put_u32(out, self.starts_offset);
        put_u32(out, self.imports_offset);
        put_u32(out, self.symbols_offset);
        put_u32(out, self.imports_count);
        put_u32(out, self.imports_format);
        put_u32(out, self.symbols_format);
        Ok(())
    }
}

/// How the starts of the chains begin (`fixup-chains.h`: `dyld_chained_starts_in_image`). Behind it stands a number of
/// 4 bytes for each segment: the offset of the segment's starts from this structure, or 0 where it has no fixup.
#[derive(Clone, Copy, Debug, PartialEq, Eq)]
pub struct ChainedStartsInImage {
    /// How many segments the image has.
    pub seg_count: u32,
}

impl ChainedStartsInImage {
    /// How many bytes it has in a file, without the offsets behind it.
    pub const SIZE: usize = 4;

    /// Reads the structure whose first byte stands at the offset `at`.
    pub fn read(bytes: &[u8], at: usize) -> ChainedStartsInImage
        requires { at + Self.SIZE ≤ length bytes.now }
        ensures { result ≡ chained_starts_in_image_at bytes.now at }
    {
        ChainedStartsInImage {
            seg_count: u32_at(bytes, at),
        }
    }

    /// Appends the bytes of the structure, or leaves `out` as it was.
    pub fn write(self, out: &mut Vec<u8>) -> Result<(), AllocError>
        ensures ok { OnOk result (out.new.items ≡ out.old.items ++ chained_starts_in_image_bytes self) }
        ensures size { OnOk result (length out.new.items ≡ length out.old.items + Self.SIZE) }
        ensures read_back { OnOk result (ReadsBack chained_starts_in_image_at out.old.items out.new.items self) }
        ensures err { OnErr result (out.new.items ≡ out.old.items) }
    {
        out.reserve(Self::SIZE)?;
        put_u32(out, self.seg_count);
        Ok(())
    }
}

/// How the starts of a segment's chains begin (`fixup-chains.h`: `dyld_chained_starts_in_segment`). Behind it stands a
/// number of 2 bytes for each page: the offset in the page of its first fixup, or `DYLD_CHAINED_PTR_START_NONE`.
#[derive(Clone, Copy, Debug, PartialEq, Eq)]
pub struct ChainedStartsInSegment {
    /// In bytes, the numbers of the pages included.
    pub size: u32,
    /// How many bytes a page has.
    pub page_size: u16,
    /// `DYLD_CHAINED_PTR_64_OFFSET` or another form of a pointer.
    pub pointer_format: u16,
    /// The offset of the segment from the image's first address.
    pub segment_offset: u64,
    /// Of pointers of 32 bits; 0 in an image for 64 bits.
    pub max_valid_pointer: u32,
    /// How many pages have a number.
    pub page_count: u16,
}

impl ChainedStartsInSegment {
    /// How many bytes it has in a file, without the numbers of the pages.
    pub const SIZE: usize = 22;

    /// Reads the structure whose first byte stands at the offset `at`.
    pub fn read(bytes: &[u8], at: usize) -> ChainedStartsInSegment
        requires { at + Self.SIZE ≤ length bytes.now }
        ensures { result ≡ chained_starts_in_segment_at bytes.now at }
    {
        ChainedStartsInSegment {
            size: u32_at(bytes, at),
            page_size: u16_at(bytes, at + 4),
            pointer_format: u16_at(bytes, at + 6),
            segment_offset: u64_at(bytes, at + 8),
            max_valid_pointer: u32_at(bytes, at + 16),
            page_count: u16_at(bytes, at + 20),
        }
    }

    /// Appends the bytes of the structure, or leaves `out` as it was.
    pub fn write(self, out: &mut Vec<u8>) -> Result<(), AllocError>
        ensures ok { OnOk result (out.new.items ≡ out.old.items ++ chained_starts_in_segment_bytes self) }
        ensures size { OnOk result (length out.new.items ≡ length out.old.items + Self.SIZE) }
        ensures read_back { OnOk result (ReadsBack chained_starts_in_segment_at out.old.items out.new.items self) }
        ensures err { OnErr result (out.new.items ≡ out.old.items) }
    {
        out.reserve(Self::SIZE)?;
        put_u32(out, self.size);
        put_u16(out, self.page_size);
        put_u16(out, self.pointer_format);
        put_u64(out, self.segment_offset);
        put_u32(out, self.max_valid_pointer);
        put_u16(out, self.page_count);
        Ok(())
    }
}
