//! The candidates that win.
ghost use Rattle.std.specs.Prelude.{◌≡◌, ◌∷◌, ◌++◌, [], List};
ghost use Rattle.mo_types.specs.declared.loaded.LoadedFile.{LoadedFile};
ghost use Rattle.symbol_winners.specs.Winners.{align_in, size_in};
ghost use Rattle.symbol_winners.specs.declared.found.FoundIn.{FoundIn as Held};
ghost use Rattle.symbol_winners.specs.inner.Best as bests;

use crate::found::FoundIn;
use mo_types::SymbolKind;

/// What is held of the candidates of a name: the first that has the name's word, and the greatest size and alignment of
/// those that are common symbols.
#[derive(Clone, Copy)]
pub(crate) struct Best<'a> {
    pub winner: Option<FoundIn<'a>>,
    pub size: u64,
    pub align: u8,
}

fn size_of(kind: SymbolKind) -> u64
    ensures { result ≡ size_in kind }
{
    match kind {
        SymbolKind::Common { size, .. } => size,
        _ => 0,
    }
}

fn align_of(kind: SymbolKind) -> u8
    ensures { result ≡ align_in kind }
{
    match kind {
        SymbolKind::Common { align, .. } => align,
        _ => 0,
    }
}

// The winner so far, or a candidate where there is none and it wins.
fn or_this<'a>(
    winner: Option<FoundIn<'a>>,
    candidate: FoundIn<'a>,
    wins: bool,
) -> Option<FoundIn<'a>>
    ensures { result ≡ bests.or_this winner.entry candidate.entry wins }
{
    match winner {
        Some(winner) => Some(winner),
        None => { if wins { Some(candidate) } else { None } }
    }
}

impl<'a> Best<'a> {
    /// That of no candidates.
    pub(crate) fn none() -> Best<'a>
        ensures { result ≡ bests.nothing }
    {
        Best {
            winner: None,
            size: 0,
            align: 0,
        }
    }

    /// With a candidate more, which has the name's word or hasn't.
    #[tactic(auto, using(crate::proofs::BestLemmas::bests))]
    pub(crate) fn with(self, candidate: FoundIn<'a>, wins: bool) -> Best<'a>
        ensures { (files : List LoadedFile) (fs : List Held) → self.entry ≡ bests.best_of files fs
            → wins ≡ bests.candidate_wins files candidate.entry → result ≡ bests.best_of files (fs ++ candidate.entry ∷ []) }
    {
        Best {
            winner: or_this(self.winner, candidate, wins),
            size: self.size.max(size_of(candidate.symbol.kind)),
            align: self.align.max(align_of(candidate.symbol.kind)),
        }
    }
}
