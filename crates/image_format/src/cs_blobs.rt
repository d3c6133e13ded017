//! The numbers of code signatures, from `cs_blobs.h`.

/// The first number of a signature that stands in a file.
pub const CSMAGIC_EMBEDDED_SIGNATURE: u32 = 0xfade_0cc0;

/// The first number of a code directory.
pub const CSMAGIC_CODEDIRECTORY: u32 = 0xfade_0c02;

/// The type of the entry of a code directory in a signature.
pub const CSSLOT_CODEDIRECTORY: u32 = 0;

/// The version of a code directory from which on it tells of the segment of the code.
pub const CS_SUPPORTSEXECSEG: u32 = 0x2_0400;

/// A flag of a code directory: nobody vouches for the signature.
pub const CS_ADHOC: u32 = 0x2;

/// A flag of a code directory: a linker wrote the signature.
pub const CS_LINKER_SIGNED: u32 = 0x2_0000;

/// The type of the hashes: SHA-256.
pub const CS_HASHTYPE_SHA256: u8 = 2;

/// How many bytes such a hash has.
pub const CS_SHA256_LEN: u8 = 32;

/// A flag of the segment of the code: the file is a program.
pub const CS_EXECSEG_MAIN_BINARY: u64 = 0x1;
