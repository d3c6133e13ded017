ghost use Rattle.std.specs.Prelude.{◌≡◌, ◌+◌, ◌≤◌, ◌++◌, length, OnOk, OnErr};
ghost use Rattle.mo_format.specs.Fields.{ReadsBack};
ghost use Rattle.mo_format.specs.Segment.{segment_command_at, segment_command_bytes, section_header_at, section_header_bytes};

use crate::fields::{name_at, put_name, put_u32, put_u64, u32_at, u64_at};
use std::alloc::AllocError;

/// A segment; its sections' headers follow it (`loader.h`: `segment_command_64`).
#[derive(Clone, Copy, Debug, PartialEq, Eq)]
pub struct SegmentCommand {
    /// `LC_SEGMENT_64`, 0x19.
    pub cmd: u32,
    /// In bytes: 72, and 80 for each section.
    pub cmdsize: u32,
    /// The name, with zeros after it.
    pub segname: [u8; 16],
    /// The address in memory.
    pub vmaddr: u64,
    /// How many bytes it has in memory.
    pub vmsize: u64,
    /// The offset in the file.
    pub fileoff: u64,
    /// How many bytes it has in the file.
    pub filesize: u64,
    /// What its memory may ever allow: `VM_PROT_READ` 1, `VM_PROT_WRITE` 2, `VM_PROT_EXECUTE` 4.
    pub maxprot: u32,
    /// What its memory allows at first, in those bits.
    pub initprot: u32,
    /// How many sections it has.
    pub nsects: u32,
    /// Bits that are named `SG_`, such as `SG_READ_ONLY` 0x10.
    pub flags: u32,
}

impl SegmentCommand {
    /// How many bytes it has in a file.
    pub const SIZE: usize = 72;

    /// Reads the command whose first byte stands at the offset `at`.
    pub fn read(bytes: &[u8], at: usize) -> SegmentCommand
        requires { at + Self.SIZE ≤ length bytes.now }
        ensures { result ≡ segment_command_at bytes.now at }
    {
        SegmentCommand {
            cmd: u32_at(bytes, at),
            cmdsize: u32_at(bytes, at + 4),
            segname: name_at(bytes, at + 8),
            vmaddr: u64_at(bytes, at + 24),
            vmsize: u64_at(bytes, at + 32),
            fileoff: u64_at(bytes, at + 40),
            filesize: u64_at(bytes, at + 48),
            maxprot: u32_at(bytes, at + 56),
            initprot: u32_at(bytes, at + 60),
            nsects: u32_at(bytes, at + 64),
            flags: u32_at(bytes, at + 68),
        }
    }

    /// Appends the bytes of the command, or leaves `out` as it was.
    pub fn write(self, out: &mut Vec<u8>) -> Result<(), AllocError>
        ensures ok { OnOk result (out.new.items ≡ out.old.items ++ segment_command_bytes self) }
        ensures size { OnOk result (length out.new.items ≡ length out.old.items + Self.SIZE) }
        ensures read_back { OnOk result (ReadsBack segment_command_at out.old.items out.new.items self) }
        ensures err { OnErr result (out.new.items ≡ out.old.items) }
    {
        out.reserve(Self::SIZE)?;
        put_u32(out, self.cmd);
        put_u32(out, self.cmdsize);
        put_name(out, &self.segname);
        put_u64(out, self.vmaddr);
        put_u64(out, self.vmsize);
        put_u64(out, self.fileoff);
        put_u64(out, self.filesize);
        put_u32(out, self.maxprot);
        put_u32(out, self.initprot);
        put_u32(out, self.nsects);
        put_u32(out, self.flags);
        Ok(())
    }
}

/// The header of a section (`loader.h`: `section_64`).
#[derive(Clone, Copy, Debug, PartialEq, Eq)]
pub struct SectionHeader {
    /// The name, with zeros after it.
    pub sectname: [u8; 16],
    /// The segment's name, with zeros after it.
    pub segname: [u8; 16],
    /// The address in memory.
    pub addr: u64,
    /// How many bytes it has in memory.
    pub size: u64,
    /// The offset of the contents in the file.
    pub offset: u32,
    /// The alignment is 2 to this power.
    pub align: u32,
    /// The offset of the relocations in the file.
    pub reloff: u32,
    /// How many relocations there are.
    pub nreloc: u32,
    /// The type, as `S_REGULAR` 0, in the low 8 bits, and above them the attributes, named `S_ATTR_`.
    pub flags: u32,
    /// Of stubs and of pointers to symbols, the first one's index in the indirect symbol table; else 0.
    pub reserved1: u32,
    /// Of stubs, the bytes of one; else 0.
    pub reserved2: u32,
    /// Without a meaning; 0.
    pub reserved3: u32,
}

impl SectionHeader {
    /// How many bytes it has in a file.
    pub const SIZE: usize = 80;

    /// Reads the header whose first byte stands at the offset `at`.
    pub fn read(bytes: &[u8], at: usize) -> SectionHeader
        requires { at + Self.SIZE ≤ length bytes.now }
        ensures { result ≡ section_header_at bytes.now at }
    {
        SectionHeader {
            sectname: name_at(bytes, at),
            segname: name_at(bytes, at + 16),
            addr: u64_at(bytes, at + 32),
            size: u64_at(bytes, at + 40),
            offset: u32_at(bytes, at + 48),
            align: u32_at(bytes, at + 52),
            reloff: u32_at(bytes, at + 56),
            nreloc: u32_at(bytes, at + 60),
            flags: u32_at(bytes, at + 64),
            reserved1: u32_at(bytes, at + 68),
            reserved2: u32_at(bytes, at + 72),
            reserved3: u32_at(bytes, at + 76),
        }
    }

    /// Appends the bytes of the header, or leaves `out` as it was.
    pub fn write(self, out: &mut Vec<u8>) -> Result<(), AllocError>
        ensures ok { OnOk result (out.new.items ≡ out.old.items ++ section_header_bytes self) }
        ensures size { OnOk result (length out.new.items ≡ length out.old.items + Self.SIZE) }
        ensures read_back { OnOk result (ReadsBack section_header_at out.old.items out.new.items self) }
        ensures err { OnErr result (out.new.items ≡ out.old.items) }
    {
        out.reserve(Self::SIZE)?;
        put_name(out, &self.sectname);
        put_name(out, &self.segname);
        put_u64(out, self.addr);
        put_u64(out, self.size);
        put_u32(out, self.offset);
        put_u32(out, self.align);
        put_u32(out, self.reloff);
        put_u32(out, self.nreloc);
        put_u32(out, self.flags);
        put_u32(out, self.reserved1);
        put_u32(out, self.reserved2);
        put_u32(out, self.reserved3);
        Ok(())
    }
}
