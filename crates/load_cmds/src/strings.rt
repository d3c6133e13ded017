//! Strings behind load commands (`loader.h`: lc_str).

ghost use Rattle.std.specs.Prelude.{◌≡◌, ◌+◌, ◌<◌, ◌^◌, ◌++◌, ◌≤◌, length, replicate, OnOk};
ghost use Rattle.load_cmds.specs.Names as names;

use std::alloc::AllocError;

/// The bytes of a command with a string behind its first `fixed` bytes: the string, its NUL, and zeros up to a multiple
/// of 8.
#[tactic(auto, unfolding(crate::specs::Names::string_command_size, mo_bytes::specs::Rounding::least_multiple))]
pub fn string_command_size(fixed: u64, string: &[u8]) -> u64
    requires { fixed < 2 ^ 32 }
    ensures size { result ≡ names.string_command_size fixed string.now }
    ensures small { result < 2 ^ 63 + 2 ^ 33 }
    ensures room { fixed + length string.now < result }
    ensures near { result ≤ fixed + length string.now + 8 }
{
    (fixed + string.len() as u64 + 8) / 8 * 8
}

#[tactic(auto, using(crate::proofs::Appends::first_zeros))]
fn put_zeros(out: &mut Vec<u8>, count: usize) -> Result<(), AllocError>
    requires { count ≤ 8 }
    ensures bytes { OnOk result (out.new.items ≡ out.old.items ++ replicate count 0) }
{
    out.extend_from_slice(&[0u8; 8][..count])
}

/// Appends the string of a command of so many bytes whose first `fixed` ones are there, with its NUL and zeros.
#[tactic(auto, using(crate::proofs::Appends::appends), unfolding(crate::specs::Names::string_field))]
pub fn put_string(out: &mut Vec<u8>, fixed: u64, string: &[u8]) -> Result<(), AllocError>
    requires { fixed < 2 ^ 32 }
    ensures bytes { OnOk result (out.new.items ≡ out.old.items ++ names.string_field fixed string.now) }
{
    let zeros = string_command_size(fixed, string) - (fixed + string.len() as u64);
    out.extend_from_slice(string)?;
    put_zeros(out, zeros as usize)
}
