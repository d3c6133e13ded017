ghost use Rattle.std.specs.Prelude.{◌≡◌, ◌<◌, ◌≤◌, ◌^◌};
ghost use Rattle.mo_types.specs.Candidates as candidates;

use crate::key::FileId;
use crate::object::{Object, Section, Symbol, SymbolKind};
use crate::whole::section_numbered;

fn has_place(sections: &[Section], kind: &SymbolKind) -> bool
    ensures { result ≡ candidates.has_place sections.now kind.now }
{
    match *kind {
        SymbolKind::Defined { section, .. } => match section_numbered(
            sections,
            u32::from(section),
        ) {
            Some(section) => !section.is_dropped(),
            None => false,
        },
        SymbolKind::Common { .. } => true,
        SymbolKind::Undefined | SymbolKind::Absolute | SymbolKind::Passed => false,
    }
}

impl Object {
    /// Whether a symbol of the object is a candidate for the definition of its name: an external one that stands in a
    /// section that is linked, or a common one.
    #[tactic(auto, unfolding(crate::specs::Candidates::is_candidate))]
    pub fn is_candidate(&self, symbol: &Symbol) -> bool
        ensures { result ≡ candidates.is_candidate self.now.sections symbol.now }
    {
        symbol.external && has_place(self.sections.as_slice(), &symbol.kind)
    }
}

impl Symbol {
    /// How strong it is as a candidate: 0 a strong definition, 1 a weak one, 2 a common symbol. The least wins.
    #[tactic(auto, unfolding(crate::specs::Candidates::strength))]
    pub fn strength(&self) -> u8
        ensures value { result ≡ candidates.strength self.now }
        ensures few { result ≤ 2 }
    {
        match self.kind {
            SymbolKind::Common { .. } => 2,
            _ => { if self.weak_def { 1 } else { 0 } }
        }
    }
}

impl FileId {
    /// The word of the file's symbol of an index as a candidate: its strength from bit 60 on, then 16 bits of position,
    /// 20 of member and 24 of index.
    #[tactic(auto, unfolding(crate::specs::Candidates::word_of))]
    pub fn word_of(self, index: u32, symbol: &Symbol) -> u64
        requires member { self.member < 2 ^ 20 }
        requires index { index < 2 ^ 24 }
        ensures { result ≡ candidates.word_of self index symbol.now }
    {
        u64::from(symbol.strength()) * (1 << 60)
            + u64::from(self.position) * (1 << 44)
            + u64::from(self.member) * (1 << 24)
            + u64::from(index)
    }
}
