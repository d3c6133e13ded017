//! Names in structures.

ghost use Rattle.std.specs.Prelude.{◌≡◌};
ghost use Rattle.mo_obj.specs.Names as names;

use mo_strings::first_nul;

/// The bytes of a name before its first NUL, or all where there is none.
#[tactic(auto, unfolding(crate::specs::Names::name_text))]
pub fn name_text(name: &[u8]) -> &[u8]
    ensures { result.now ≡ names.name_text name.now }
{
    match first_nul(name) {
        Some(end) => &name[..end],
        None => name,
    }
}
