//! The flags of the image's header.
ghost use Rattle.std.specs.Prelude.{◌≡◌, ◌<◌, ◌^◌};
ghost use Rattle.std.specs.List.{list_any};
ghost use Rattle.std.specs.List.Sorted.{IsStrictlySortedBy};
ghost use Rattle.mo_types.specs.Keys.{compare_keys};
ghost use Rattle.link_files.specs.Flags as spec;

use crate::resolved::Resolved;
use lib_bind::Library;
use mark_core::is_kept;
use mo_format::loader::{
    MH_DYLDLINK, MH_NO_REEXPORTED_DYLIBS, MH_PIE, MH_TWOLEVEL, MH_WEAK_DEFINES,
};
use mo_types::AtomKey;
use symbol_winners::{SymbolTable, Winner};

#[tactic(auto, unfolding(crate::specs::Flags::is_weak_export))]
fn is_weak_export(symbols: &SymbolTable, keys: &[AtomKey], winner: &Winner) -> bool
    requires { IsStrictlySortedBy compare_keys keys.now }
    ensures { result ≡ spec.is_weak_export symbols.now.literals keys.now winner.now }
{
    winner.weak && winner.exported && is_kept(keys, symbols.representative(winner.atom))
}

// Whether a weak definition is kept that other images see.
fn any_weak_export(symbols: &SymbolTable, list: &[Winner], keys: &[AtomKey]) -> bool
    requires { IsStrictlySortedBy compare_keys keys.now }
    ensures { result ≡ list_any (spec.is_weak_export symbols.now.literals keys.now) list.now }
{
    list.iter()
        .any(|winner| is_weak_export(symbols, keys, winner))
}

fn any_reexported(libraries: &[Library]) -> bool
    ensures { result ≡ list_any (λ library. library.reexport) libraries.now }
{
    libraries.iter().any(|library| library.reexport)
}

/// The flags of an image that keeps these atoms, but for those that its pointers and sections tell (`loader.h`).
#[tactic(auto, unfolding(crate::specs::Flags::header_flags))]
pub(crate) fn header_flags(resolved: &Resolved, keys: &[AtomKey]) -> u32
    requires { IsStrictlySortedBy compare_keys keys.now }
    ensures exact { result ≡ spec.header_flags resolved.now.command.now resolved.now.libs.now resolved.now.symbols.now keys.now }
    ensures few { result < 2 ^ 31 }
{
    let Resolved {
        command,
        libs,
        symbols,
        ..
    } = *resolved;
    let weak = if any_weak_export(symbols, symbols.winners(), keys) {
        MH_WEAK_DEFINES
    } else {
        0
    };
    let kind = if !command.dylib {
        MH_PIE
    } else if any_reexported(libs.graph().libraries.as_slice()) {
        0
    } else {
        MH_NO_REEXPORTED_DYLIBS
    };
    MH_DYLDLINK + MH_TWOLEVEL + weak + kind
}
