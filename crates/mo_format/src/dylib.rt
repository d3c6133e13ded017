ghost use Rattle.std.specs.Prelude.{◌≡◌, ◌+◌, ◌≤◌, ◌++◌, length, OnOk, OnErr};
ghost use Rattle.mo_format.specs.Fields.{ReadsBack};
ghost use Rattle.mo_format.specs.Dylib.{dylib_command_at, dylib_command_bytes, rpath_command_at, rpath_command_bytes};

use crate::fields::{put_u32, u32_at};
use std::alloc::AllocError;

/// A library, by its install name, which follows (`loader.h`: `dylib_command`).
#[derive(Clone, Copy, Debug, PartialEq, Eq)]
pub struct DylibCommand {
    /// `LC_ID_DYLIB` for the file itself; for one that it loads `LC_LOAD_DYLIB`, `LC_LOAD_WEAK_DYLIB` or
    /// `LC_REEXPORT_DYLIB`.
    pub cmd: u32,
    /// In bytes: 24, and the name with its NUL and zeros up to a multiple of 8.
    pub cmdsize: u32,
    /// The offset of the name from the command's first byte: 24.
    pub name: u32,
    /// When the library was built, in seconds; images have 1 for themselves and 2 for what they load.
    pub timestamp: u32,
    /// The version: X.Y.Z as the hexadecimal digits `xxxxyyzz`.
    pub current_version: u32,
    /// The least version that users of the library may ask for, in that form.
    pub compatibility_version: u32,
}

impl DylibCommand {
    /// How many bytes it has in a file.
    pub const SIZE: usize = 24;

    /// Reads the command whose first byte stands at the offset `at`.
    pub fn read(bytes: &[u8], at: usize) -> DylibCommand
        requires { at + Self.SIZE ≤ length bytes.now }
        ensures { result ≡ dylib_command_at bytes.now at }
    {
        DylibCommand {
            cmd: u32_at(bytes, at),
            cmdsize: u32_at(bytes, at + 4),
            name: u32_at(bytes, at + 8),
            timestamp: u32_at(bytes, at + 12),
            current_version: u32_at(bytes, at + 16),
            compatibility_version: u32_at(bytes, at + 20),
        }
    }

    /// Appends the bytes of the command, or leaves `out` as it was.
    pub fn write(self, out: &mut Vec<u8>) -> Result<(), AllocError>
        ensures ok { OnOk result (out.new.items ≡ out.old.items ++ dylib_command_bytes self) }
        ensures size { OnOk result (length out.new.items ≡ length out.old.items + Self.SIZE) }
        ensures read_back { OnOk result (ReadsBack dylib_command_at out.old.items out.new.items self) }
        ensures err { OnErr result (out.new.items ≡ out.old.items) }
    {
        out.reserve(Self::SIZE)?;
        put_u32(out, self.cmd);
        put_u32(out, self.cmdsize);
        put_u32(out, self.name);
        put_u32(out, self.timestamp);
        put_u32(out, self.current_version);
        put_u32(out, self.compatibility_version);
        Ok(())
    }
}

/// A directory that `@rpath` may stand for; its path follows (`loader.h`: `rpath_command`).
#[derive(Clone, Copy, Debug, PartialEq, Eq)]
pub struct RpathCommand {
    /// `LC_RPATH`, 0x8000001c.
    pub cmd: u32,
    /// In bytes: 12, and the path with its NUL and zeros up to a multiple of 8.
    pub cmdsize: u32,
    /// The offset of the path from the command's first byte: 12.
    pub path: u32,
}

impl RpathCommand {
    /// How many bytes it has in a file.
    pub const SIZE: usize = 12;

    /// Reads the command whose first byte stands at the offset `at`.
    pub fn read(bytes: &[u8], at: usize) -> RpathCommand
        requires { at + Self.SIZE ≤ length bytes.now }
        ensures { result ≡ rpath_command_at bytes.now at }
    {
        RpathCommand {
            cmd: u32_at(bytes, at),
            cmdsize: u32_at(bytes, at + 4),
            path: u32_at(bytes, at + 8),
        }
    }

    /// Appends the bytes of the command, or leaves `out` as it was.
    pub fn write(self, out: &mut Vec<u8>) -> Result<(), AllocError>
        ensures ok { OnOk result (out.new.items ≡ out.old.items ++ rpath_command_bytes self) }
        ensures size { OnOk result (length out.new.items ≡ length out.old.items + Self.SIZE) }
        ensures read_back { OnOk result (ReadsBack rpath_command_at out.old.items out.new.items self) }
        ensures err { OnErr result (out.new.items ≡ out.old.items) }
    {
        out.reserve(Self::SIZE)?;
        put_u32(out, self.cmd);
        put_u32(out, self.cmdsize);
        put_u32(out, self.path);
        Ok(())
    }
}
