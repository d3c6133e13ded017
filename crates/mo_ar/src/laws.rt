//! What the definitions say, in words of their own.

ghost use Rattle.std.specs.Prelude.{◌≡◌, ℕ, List, Ok};
ghost use Rattle.mo_ar.specs.Archive.{IsArchive, archive_of};
ghost use Rattle.mo_ar.specs.Chain.{IsChain, Link, chain, end_of};
ghost use Rattle.mo_ar.specs.Slice.{IsSlice, slice_of};
ghost use Rattle.mo_ar.specs.declared.archive.Archive.{Archive};

/// The slice of a universal file is the one of its first entry for arm64, within the file, as all entries are.
#[tactic(auto, using(crate::proofs::LawLemmas::slices))]
pub fn slice_of_the_first_entry(bytes: &[u8])
    ensures is { (from size : ℕ) → slice_of bytes.now ≡ Ok (from, size) → IsSlice bytes.now from size }
    ensures alone { (from size : ℕ) → IsSlice bytes.now from size → slice_of bytes.now ≡ Ok (from, size) }
{}

/// The members that headers lead to from a place make up one chain, which ends where no header stands; there is no
/// other.
#[tactic(auto, using(crate::proofs::LawLemmas::chains))]
pub fn one_chain(bytes: &[u8])
    ensures is { (at : ℕ) → IsChain bytes.now at (chain bytes.now at) (end_of at (chain bytes.now at)) }
    ensures alone { (at : ℕ) (links : List Link) (to : ℕ) → IsChain bytes.now at links to → links ≡ chain bytes.now at }
{}

/// An archive is the chain of its headers to the file's end, with what its table of contents offers.
#[tactic(auto, using(crate::proofs::LawLemmas::archives))]
pub fn an_archive_is_a_chain(bytes: &[u8])
    ensures is { (archive : Archive) → archive_of bytes.now ≡ Ok archive → IsArchive bytes.now archive }
    ensures alone { (archive : Archive) → IsArchive bytes.now archive → archive_of bytes.now ≡ Ok archive }
{}
