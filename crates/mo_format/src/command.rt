ghost use Rattle.std.specs.Prelude.{◌≡◌, ◌+◌, ◌≤◌, ◌++◌, length, OnOk, OnErr};
ghost use Rattle.mo_format.specs.Fields.{ReadsBack};
ghost use Rattle.mo_format.specs.Command.{dylinker_command_at, dylinker_command_bytes, build_version_command_at, build_version_command_bytes};
ghost use Rattle.mo_format.specs.Command.{entry_point_command_at, entry_point_command_bytes, uuid_command_at, uuid_command_bytes};

use crate::fields::{name_at, put_name, put_u32, put_u64, u32_at, u64_at};
use std::alloc::AllocError;

/// Which loader starts the program; its path follows (`loader.h`: `dylinker_command`).
#[derive(Clone, Copy, Debug, PartialEq, Eq)]
pub struct DylinkerCommand {
    /// `LC_LOAD_DYLINKER`, 0xe.
    pub cmd: u32,
    /// In bytes: 12, and the path with its NUL and zeros up to a multiple of 8.
    pub cmdsize: u32,
    /// The offset of the path from the command's first byte: 12.
    pub name: u32,
}

impl DylinkerCommand {
    /// How many bytes it has in a file.
    pub const SIZE: usize = 12;

    /// Reads the command whose first byte stands at the offset `at`.
    pub fn read(bytes: &[u8], at: usize) -> DylinkerCommand
        requires { at + Self.SIZE ≤ length bytes.now }
        ensures { result ≡ dylinker_command_at bytes.now at }
    {
        DylinkerCommand {
            cmd: u32_at(bytes, at),
            cmdsize: u32_at(bytes, at + 4),
            name: u32_at(bytes, at + 8),
        }
    }

    /// Appends the bytes of the command, or leaves `out` as it was.
    pub fn write(self, out: &mut Vec<u8>) -> Result<(), AllocError>
        ensures ok { OnOk result (out.new.items ≡ out.old.items ++ dylinker_command_bytes self) }
        ensures size { OnOk result (length out.new.items ≡ length out.old.items + Self.SIZE) }
        ensures read_back { OnOk result (ReadsBack dylinker_command_at out.old.items out.new.items self) }
        ensures err { OnErr result (out.new.items ≡ out.old.items) }
    {
        out.reserve(Self::SIZE)?;
        put_u32(out, self.cmd);
        put_u32(out, self.cmdsize);
        put_u32(out, self.name);
        Ok(())
    }
}

/// The platform and the versions that a file is for (`loader.h`: `build_version_command`).
#[derive(Clone, Copy, Debug, PartialEq, Eq)]
pub struct BuildVersionCommand {
    /// `LC_BUILD_VERSION`, 0x32.
    pub cmd: u32,
    /// In bytes: 24, and 8 for each tool.
    pub cmdsize: u32,
    /// `PLATFORM_MACOS`, 1.
    pub platform: u32,
    /// The least version of the system: X.Y.Z as the hexadecimal digits `xxxxyyzz`.
    pub minos: u32,
    /// The version of the development kit, in that form.
    pub sdk: u32,
    /// How many tools follow.
    pub ntools: u32,
}

impl BuildVersionCommand {
    /// How many bytes it has in a file.
    pub const SIZE: usize = 24;

    /// Reads the command whose first byte stands at the offset `at`.
    pub fn read(bytes: &[u8], at: usize) -> BuildVersionCommand
        requires { at + Self.SIZE ≤ length bytes.now }
        ensures { result ≡ build_version_command_at bytes.now at }
    {
        BuildVersionCommand {
            cmd: u32_at(bytes, at),
            cmdsize: u32_at(bytes, at + 4),
            platform: u32_at(bytes, at + 8),
            minos: u32_at(bytes, at + 12),
            sdk: u32_at(bytes, at + 16),
            ntools: u32_at(bytes, at + 20),
        }
    }

    /// Appends the bytes of the command, or leaves `out` as it was.
    pub fn write(self, out: &mut Vec<u8>) -> Result<(), AllocError>
        ensures ok { OnOk result (out.new.items ≡ out.old.items ++ build_version_command_bytes self) }
        ensures size { OnOk result (length out.new.items ≡ length out.old.items + Self.SIZE) }
        ensures read_back { OnOk result (ReadsBack build_version_command_at out.old.items out.new.items self) }
        ensures err { OnErr result (out.new.items ≡ out.old.items) }
    {
        out.reserve(Self::SIZE)?;
        put_u32(out, self.cmd);
        put_u32(out, self.cmdsize);
        put_u32(out, self.platform);
        put_u32(out, self.minos);
        put_u32(out, self.sdk);
        put_u32(out, self.ntools);
        Ok(())
    }
}

/// Where the program begins (`loader.h`: `entry_point_command`).
#[derive(Clone, Copy, Debug, PartialEq, Eq)]
pub struct EntryPointCommand {
    /// `LC_MAIN`, 0x80000028.
    pub cmd: u32,
    /// In bytes: 24.
    pub cmdsize: u32,
    /// The offset of the first instruction from the start of `__TEXT`.
    pub entryoff: u64,
    /// The bytes of the first thread's stack, or 0 for as many as is usual.
    pub stacksize: u64,
}

impl EntryPointCommand {
    /// How many bytes it has in a file.
    pub const SIZE: usize = 24;

    /// Reads the command whose first byte stands at the offset `at`.
    pub fn read(bytes: &[u8], at: usize) -> EntryPointCommand
        requires { at + Self.SIZE ≤ length bytes.now }
        ensures { result ≡ entry_point_command_at bytes.now at }
    {
        EntryPointCommand {
            cmd: u32_at(bytes, at),
            cmdsize: u32_at(bytes, at + 4),
            entryoff: u64_at(bytes, at + 8),
            stacksize: u64_at(bytes, at + 16),
        }
    }

    /// Appends the bytes of the command, or leaves `out` as it was.
    pub fn write(self, out: &mut Vec<u8>) -> Result<(), AllocError>
        ensures ok { OnOk result (out.new.items ≡ out.old.items ++ entry_point_command_bytes self) }
        ensures size { OnOk result (length out.new.items ≡ length out.old.items + Self.SIZE) }
        ensures read_back { OnOk result (ReadsBack entry_point_command_at out.old.items out.new.items self) }
        ensures err { OnErr result (out.new.items ≡ out.old.items) }
    {
        out.reserve(Self::SIZE)?;
        put_u32(out, self.cmd);
        put_u32(out, self.cmdsize);
        put_u64(out, self.entryoff);
        put_u64(out, self.stacksize);
        Ok(())
    }
}

/// What tells an image from all others (`loader.h`: `uuid_command`).
#[derive(Clone, Copy, Debug, PartialEq, Eq)]
pub struct UuidCommand {
    /// `LC_UUID`, 0x1b.
    pub cmd: u32,
    /// In bytes: 24.
    pub cmdsize: u32,
    /// The 16 bytes of a UUID (RFC 9562).
    pub uuid: [u8; 16],
}

impl UuidCommand {
    /// How many bytes it has in a file.
    pub const SIZE: usize = 24;

    /// Reads the command whose first byte stands at the offset `at`.
    pub fn read(bytes: &[u8], at: usize) -> UuidCommand
        requires { at + Self.SIZE ≤ length bytes.now }
        ensures { result ≡ uuid_command_at bytes.now at }
    {
        UuidCommand {
            cmd: u32_at(bytes, at),
            cmdsize: u32_at(bytes, at + 4),
            uuid: name_at(bytes, at + 8),
        }
    }

    /// Appends the bytes of the command, or leaves `out` as it was.
    pub fn write(self, out: &mut Vec<u8>) -> Result<(), AllocError>
        ensures ok { OnOk result (out.new.items ≡ out.old.items ++ uuid_command_bytes self) }
        ensures size { OnOk result (length out.new.items ≡ length out.old.items + Self.SIZE) }
        ensures read_back { OnOk result (ReadsBack uuid_command_at out.old.items out.new.items self) }
        ensures err { OnErr result (out.new.items ≡ out.old.items) }
    {
        out.reserve(Self::SIZE)?;
        put_u32(out, self.cmd);
        put_u32(out, self.cmdsize);
        put_name(out, &self.uuid);
        Ok(())
    }
}
