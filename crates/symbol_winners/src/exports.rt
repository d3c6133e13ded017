//! Which definitions other images see.
ghost use Rattle.std.specs.Prelude.{◌≡◌, IfOk};
ghost use Rattle.command_line.specs.declared.command.Command.{Command};
ghost use Rattle.symbol_winners.specs.Winners as winners;
ghost use Rattle.symbol_winners.specs.inner.Index.{AreRules};

use crate::name_set::{NameSet, set_of};
use command_line::Command;
use mo_types::{OutOfMemory, Symbol};
use std::alloc::Global;

/// What a command says of exports.
#[derive(Drop)]
pub struct ExportRules<'a> {
    pub given: bool,
    pub exports: NameSet<'a>,
    pub unexports: NameSet<'a>,
}

/// The rules of a command.
pub(crate) fn rules_of<'a>(
    alloc: Global,
    command: &'a Command,
) -> Result<ExportRules<'a>, OutOfMemory>
    ensures { IfOk result (AreRules command.now) }
{
    Ok(ExportRules {
        given: command.export_given,
        exports: set_of(alloc, command.exports.as_slice())?,
        unexports: set_of(alloc, command.unexports.as_slice())?,
    })
}

// Whether a name is one that an assembler or a compiler gives for its own use.
fn is_own(name: &[u8]) -> bool
    ensures { result ≡ winners.is_own name.now }
{
    name.starts_with(b"l") || name.starts_with(b"L")
}

/// Whether other images see the definition that a symbol is.
#[tactic(auto, unfolding(crate::specs::Winners::is_exported))]
pub(crate) fn is_exported(rules: &ExportRules, symbol: &Symbol) -> bool
    ensures { (command : Command) → AreRules command rules.now → result ≡ winners.is_exported command symbol.now }
{
    let name = symbol.name.as_slice();
    !symbol.hidden
        && !is_own(name)
        && (!rules.given || rules.exports.contains(name))
        && !rules.unexports.contains(name)
}
