//! What holds of what loaded files link to, each on a call that does nothing.
ghost use Rattle.std.specs.Prelude.{ℕ, All, List, Ok};
ghost use Rattle.input_files.specs.Files.{HasUnwinds, IsLow};
ghost use Rattle.lib_bind.specs.declared.library.LibraryGraph.{LibraryGraph};
ghost use Rattle.link_steps.specs.Steps.{IsOne, IsSome, Stops};
ghost use Rattle.command_line.specs.declared.command.Command.{Command as Commanded};
ghost use Rattle.mo_types.specs.declared.loaded.LoadedFile.{LoadedFile};
ghost use Rattle.link_files.specs.Causes.{LinkCause, WentThrough};
ghost use Rattle.link_files.specs.Linked.{AreCut, AreLinkable, AreOrdered, AreReferred, IsLinked};

/// Files as a link has them link to something.
pub fn a_link_exists()
    ensures { (command : Commanded) (libs : LibraryGraph) (files : List LoadedFile) → AreLinkable files → IsSome (IsLinked command libs files) }
{}

/// Files whose ids rise, each cut into the pieces of its object, with its references and its unwind entries, and no piece of
/// which is aligned to more than a page, link to one thing.
pub fn a_link_is_one()
    ensures { (command : Commanded) (libs : LibraryGraph) (files : List LoadedFile)
        → AreOrdered files → AreCut files → AreReferred files → All IsLow files → All HasUnwinds files → IsOne (IsLinked command libs files) }
{}

/// What files link to, where it is an image, went through all steps: none of them refuses, and it is made of the atoms that
/// are kept.
pub fn images_went_through_all_steps()
    ensures { (command : Commanded) (libs : LibraryGraph) (files : List LoadedFile) (image : List ℕ)
        → IsLinked command libs files (Ok image) → WentThrough command libs files image }
{}

/// Files are refused exactly where the refusal's cause stands.
pub fn refusals_have_causes()
    ensures { (command : Commanded) (libs : LibraryGraph) (files : List LoadedFile) → Stops (IsLinked command libs files) (LinkCause command libs files) }
{}
