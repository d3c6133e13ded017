//! The header of an object (`loader.h`: `mach_header_64`).

ghost use Rattle.std.specs.Prelude.{◌≡◌, ◌≤◌, length, IfOk};
ghost use Rattle.mo_types.specs.Gives.{Gives};
ghost use Rattle.mo_obj.specs.Faults.{IsObjFault};
ghost use Rattle.mo_obj.specs.Header as header;

use mo_format::MachHeader;
use mo_format::loader::{CPU_SUBTYPE_ARM64_ALL, CPU_TYPE_ARM64, MH_OBJECT};
use mo_types::{Feature, ObjFault, Rule};

/// The header, where the file is an arm64 object.
#[tactic(auto, unfolding(crate::specs::Header::header_of))]
pub fn header_of(bytes: &[u8]) -> Result<MachHeader, ObjFault>
    ensures exact { Gives IsObjFault result (header.header_of bytes.now) }
    ensures within { IfOk result (λ header. 32 ≤ length bytes.now) }
{
    if bytes.len() < MachHeader::SIZE {
        return Err(ObjFault::Malformed {
            place: 0,
            rule: Rule::Header,
        });
    }
    let header = MachHeader::read(bytes, 0);
    if header.cputype != CPU_TYPE_ARM64 || header.cpusubtype != CPU_SUBTYPE_ARM64_ALL {
        return Err(ObjFault::Unsupported(Feature::Machine));
    }
    if header.filetype != MH_OBJECT {
        return Err(ObjFault::Unsupported(Feature::FileType));
    }
    Ok(header)
}
