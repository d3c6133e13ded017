//! What names are looked up in.
ghost use Rattle.symbol_winners.specs.SymbolTable.{IsSymbolTable};

use command_line::Command;
use lib_bind::Libraries;
use mo_types::Loaded;
use symbol_winners::SymbolTable;

/// What names are looked up in: the symbol table of loaded files, the libraries, and a command that says what may come from
/// elsewhere.
#[derive(Drop)]
pub(crate) struct Scope<'a> {
    pub command: &'a Command,
    pub libs: &'a Libraries,
    pub loaded: &'a Loaded,
    pub symbols: &'a SymbolTable<'a>,
    ghost of_files: { IsSymbolTable command.now loaded.now.files symbols.now },
}
