ghost use Rattle.std.specs.Prelude.{◌≡◌, ◌+◌, ◌≤◌, ◌++◌, length, OnOk, OnErr};
ghost use Rattle.mo_format.specs.Fields.{ReadsBack};
ghost use Rattle.mo_format.specs.Header.{mach_header_at, mach_header_bytes};

use crate::fields::{put_u32, u32_at};
use std::alloc::AllocError;

/// The header of a 64-bit Mach-O file (`loader.h`: `mach_header_64`).
#[derive(Clone, Copy, Debug, PartialEq, Eq)]
pub struct MachHeader {
    /// `MH_MAGIC_64`, 0xfeedfacf.
    pub magic: u32,
    /// `CPU_TYPE_ARM64`, 0x0100000c, for arm64.
    pub cputype: u32,
    /// `CPU_SUBTYPE_ARM64_ALL`, 0, for any arm64.
    pub cpusubtype: u32,
    /// `MH_OBJECT` 1, `MH_EXECUTE` 2, `MH_DYLIB` 6.
    pub filetype: u32,
    /// How many load commands follow.
    pub ncmds: u32,
    /// How many bytes they have together.
    pub sizeofcmds: u32,
    /// Bits that are named `MH_`, such as `MH_SUBSECTIONS_VIA_SYMBOLS` 0x2000.
    pub flags: u32,
    /// Without a meaning; 0.
    pub reserved: u32,
}

impl MachHeader {
    /// How many bytes it has in a file.
    pub const SIZE: usize = 32;

    /// Reads the header whose first byte stands at the offset `at`.
    pub fn read(bytes: &[u8], at: usize) -> MachHeader
        requires { at + Self.SIZE ≤ length bytes.now }
        ensures { result ≡ mach_header_at bytes.now at }
    {
        MachHeader {
            magic: u32_at(bytes, at),
            cputype: u32_at(bytes, at + 4),
            cpusubtype: u32_at(bytes, at + 8),
            filetype: u32_at(bytes, at + 12),
            ncmds: u32_at(bytes, at + 16),
            sizeofcmds: u32_at(bytes, at + 20),
            flags: u32_at(bytes, at + 24),
            reserved: u32_at(bytes, at + 28),
        }
    }

    /// Appends the bytes of the header, or leaves `out` as it was.
    pub fn write(self, out: &mut Vec<u8>) -> Result<(), AllocError>
        ensures ok { OnOk result (out.new.items ≡ out.old.items ++ mach_header_bytes self) }
        ensures size { OnOk result (length out.new.items ≡ length out.old.items + Self.SIZE) }
        ensures read_back { OnOk result (ReadsBack mach_header_at out.old.items out.new.items self) }
        ensures err { OnErr result (out.new.items ≡ out.old.items) }
    {
        out.reserve(Self::SIZE)?;
        put_u32(out, self.magic);
        put_u32(out, self.cputype);
        put_u32(out, self.cpusubtype);
        put_u32(out, self.filetype);
        put_u32(out, self.ncmds);
        put_u32(out, self.sizeofcmds);
        put_u32(out, self.flags);
        put_u32(out, self.reserved);
        Ok(())
    }
}
