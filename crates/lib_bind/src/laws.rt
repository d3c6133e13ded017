//! What the definitions mean, each on a call that does nothing.
ghost use Rattle.std.specs.Prelude.{◌≡◌, ◌+◌, ◌≤◌, ℕ, List, length, take, true, Option, Some, None, Ok, Contains, slice_get, get_or, []};
ghost use Rattle.command_line.specs.declared.command.Command.{Command};
ghost use Rattle.file_cache.specs.Program.{File};
ghost use Rattle.file_cache.specs.Runs.{file_told};
ghost use Rattle.mo_outside.specs.Answers.{Exchange};
ghost use Rattle.lib_bind.specs.Closure.{Bound, IsGraphOf, IsLast, bound_after};
ghost use Rattle.lib_bind.specs.Found.{found};
ghost use Rattle.lib_bind.specs.Graph.{IsWhole, Leads};
ghost use Rattle.lib_bind.specs.Links.{AnswerSays, HasLinks, HasName};
ghost use Rattle.lib_bind.specs.Named.{are_named};
ghost use Rattle.lib_bind.specs.Provides as provides;
ghost use Rattle.lib_bind.specs.Provides.{IsFirst, IsProvidedBy, Provides};
ghost use Rattle.lib_bind.specs.declared.growing.Reexport.{Reexport};
ghost use Rattle.lib_bind.specs.declared.library.Library.{Library};
ghost use Rattle.lib_bind.specs.declared.library.LibraryGraph.{LibraryGraph};
ghost use Rattle.lib_bind.specs.declared.named.NamedStub.{NamedStub};
ghost use Rattle.lib_bind.specs.declared.provider.Offer.{Offer};
ghost use Rattle.lib_bind.specs.declared.provider.Provider.{Provider};

/// A name is provided by the first library from whose document a path of links leads to one that exports it. It has that
/// library's ordinal, and no other's.
#[tactic(auto, using(crate::proofs::LawLemmas::providers))]
pub fn a_provider_is_the_first()
    ensures offered { (graph : LibraryGraph) (name : List ℕ) (offer : Offer)
        → IsWhole graph → provides.offer_of graph name ≡ Some offer → (at : ℕ) × IsFirst graph name at offer.library }
    ensures provided { (graph : LibraryGraph) (name : List ℕ) (provider : Provider)
        → IsWhole graph → provides.provider_of graph name ≡ Some provider → IsProvidedBy graph name provider }
{}

/// Where a name has no provider, no library provides it.
#[tactic(auto, using(crate::proofs::LawLemmas::providers))]
pub fn without_a_provider_nothing_provides()
    ensures { (graph : LibraryGraph) (name : List ℕ) (at : ℕ) (library : Library)
        → IsWhole graph → provides.provider_of graph name ≡ None → slice_get graph.libraries at ≡ Some library → ¬ Provides graph name library }
{}

/// A library reaches just the documents that a path of links leads to.
#[tactic(auto, using(crate::proofs::LawLemmas::reach))]
pub fn a_library_reaches_what_paths_lead_to()
    ensures all { (graph : LibraryGraph) (at : ℕ) (library : Library) (path : List ℕ) (to : ℕ)
        → IsWhole graph → slice_get graph.libraries at ≡ Some library → Leads graph.links library.document path to
        → Contains (get_or graph.reach at []) to }
    ensures only { (graph : LibraryGraph) (at : ℕ) (library : Library) (to : ℕ)
        → IsWhole graph → slice_get graph.libraries at ≡ Some library → Contains (get_or graph.reach at []) to
        → (path : List ℕ) × Leads graph.links library.document path to }
{}

/// What a command line is bound to when no request is left it stays bound to, however many more are looked for; and its
/// first fault stays too. No path more is tried then.
#[tactic(auto, using(crate::proofs::EndLemmas::ends_once))]
pub fn what_is_bound_stays()
    ensures { (look : List ℕ → File) (command : Command) (named : List NamedStub) (more count : ℕ)
        → IsLast count (bound_after command named count look).end → bound_after command named (more + count) look ≡ bound_after command named count look }
{}

/// The paths that so many requests try are the first ones that more requests try.
pub fn what_is_tried_goes_on()
    ensures { (look : List ℕ → File) (command : Command) (named : List NamedStub) (more count : ℕ)
        → (bound_after command named count look).tried
        ≡ take (length (bound_after command named count look).tried) (bound_after command named (more + count) look).tried }
{}

/// Where files tell something of finitely many paths, and nothing stands under the others, there is an end: after some number
/// of requests none is left, or there was a fault.
pub fn a_finite_map_has_libraries()
    ensures { (told : List Exchange) (command : Command) (named : List NamedStub)
        → (count : ℕ) × IsLast count (bound_after command named count (file_told told)).end }
{}

/// When no request is left, what is bound has libraries: whole ones, with its documents and links.
pub fn what_is_bound_has_libraries()
    ensures { (look : List ℕ → File) (command : Command) (named : List NamedStub) (count : ℕ) (bound : Bound)
        → are_named (length command.inputs) 0 named ≡ true → (bound_after command named count look).end ≡ Ok bound → length bound.closing.work ≤ count
        → (graph : LibraryGraph) × IsGraphOf count graph bound × IsWhole graph }
{}

/// Whole libraries with the same documents and links are the same: what they reach is not left open.
#[tactic(auto, using(crate::proofs::OneLemmas::one))]
pub fn whole_libraries_are_one()
    ensures { (graph other : LibraryGraph)
        → IsWhole graph → IsWhole other → graph.libraries ≡ other.libraries → graph.documents ≡ other.documents → graph.links ≡ other.links
        → graph ≡ other }
{}

/// By what stands under each path a command line is bound to one graph of libraries, or has one fault, and never both; and
/// one list of paths is tried on the way there.
pub fn what_is_bound_is_one()
    ensures outcomes { (look : List ℕ → File) (command : Command) (named : List NamedStub) (count more : ℕ)
        → IsLast count (bound_after command named count look).end → IsLast more (bound_after command named more look).end
        → bound_after command named count look ≡ bound_after command named more look }
    ensures graphs { (look : List ℕ → File) (command : Command) (named : List NamedStub) (count more : ℕ) (bound second : Bound) (graph other : LibraryGraph)
        → (bound_after command named count look).end ≡ Ok bound → (bound_after command named more look).end ≡ Ok second
        → IsGraphOf count graph bound → IsGraphOf more other second → IsWhole graph → IsWhole other → graph ≡ other }
{}

/// When no request is left, each document that was reached has just the links that it re-exports: one for each install
/// name of its text, in that order. It leads to a document that is there already and has that install name, or else to
/// the first one of the file at the path of a stub library, or where there is no such file of the one at the path of the
/// install name itself.
pub fn links_are_all_reexports()
    ensures links { (look : List ℕ → File) (command : Command) (named : List NamedStub) (count : ℕ) (bound : Bound) (document : ℕ)
        → are_named (length command.inputs) 0 named ≡ true → (bound_after command named count look).end ≡ Ok bound → length bound.closing.work ≤ count
        → Contains bound.closing.reached document → HasLinks command.syslibroot bound.closing.growing document }
    ensures here { (look : List ℕ → File) (command : Command) (named : List NamedStub) (count : ℕ) (bound : Bound) (document number : ℕ) (reexport : Reexport)
        → are_named (length command.inputs) 0 named ≡ true → (bound_after command named count look).end ≡ Ok bound
        → Contains (get_or bound.closing.growing.reexports document []) reexport → reexport.here ≡ Some number
        → HasName bound.closing.growing.documents number reexport.install }
{}

/// What is known of a path is what stands there: no file, or one whose documents stand together, the first one at the number
/// that is known.
pub fn what_is_known_was_answered()
    ensures { (look : List ℕ → File) (command : Command) (named : List NamedStub) (count : ℕ) (bound : Bound) (path : List ℕ) (document : Option ℕ)
        → (bound_after command named count look).end ≡ Ok bound → found path bound.closing.growing.known ≡ Some document
        → AnswerSays look bound.closing.growing.documents path document }
{}
