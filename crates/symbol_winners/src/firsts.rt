//! The first two of the candidates of each name.
ghost use Rattle.std.specs.Prelude.{◌≡◌, ◌∷◌, ◌++◌, [], List};
ghost use Rattle.mo_types.specs.Candidates.{Candidate};
ghost use Rattle.symbol_winners.specs.inner.Tables as tables;

use mo_types::FileId;

/// The files of the first two candidates of a name.
#[derive(Clone, Copy, Debug)]
pub(crate) enum Firsts {
    Neither,
    One(FileId),
    Two(FileId, FileId),
}

impl Firsts {
    /// With one candidate more, of a file.
    #[tactic(auto, using(crate::proofs::FirstLemmas::firsts))]
    pub(crate) fn with(self, file: FileId) -> Firsts
        ensures { (cs : List Candidate) (c : Candidate) → self ≡ tables.firsts_of cs → c.file ≡ file → result ≡ tables.firsts_of (cs ++ c ∷ []) }
    {
        match self {
            Firsts::Neither => Firsts::One(file),
            Firsts::One(first) => Firsts::Two(first, file),
            Firsts::Two(first, second) => Firsts::Two(first, second),
        }
    }

    /// The files of two, where there are two.
    pub(crate) fn pair(self) -> Option<(FileId, FileId)>
        ensures { result ≡ tables.pair_of self }
    {
        match self {
            Firsts::Two(first, second) => Some((first, second)),
            Firsts::Neither | Firsts::One(_) => None,
        }
    }
}
