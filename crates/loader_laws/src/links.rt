//! What holds of links. Each function is a law, which its contract states, and does nothing.
ghost use Rattle.std.specs.Prelude.{ℕ, List, All, Ok};
ghost use Rattle.lib_bind.specs.declared.library.LibraryGraph.{LibraryGraph};
ghost use Rattle.file_cache.specs.Program.{File};
ghost use Rattle.file_cache.specs.Runs.{AreOfBytes, file_told};
ghost use Rattle.input_files.specs.Files.{IsLow};
ghost use Rattle.mo_outside.specs.Answers.{Exchange};
ghost use Rattle.link_engine.specs.Bytes.{HaveBytes};
ghost use Rattle.link_engine.specs.Verdict.{IsVerdict};
ghost use Rattle.link_engine.specs.declared.plan.Plan.{Plan};
ghost use Rattle.link_files.specs.Linked.{AreCut, AreOrdered, IsLinked};
ghost use Rattle.loader_laws.specs.Images.{IsImageOf};
ghost use Rattle.loader_laws.specs.LinkOf.{IsLinkOf};
ghost use Rattle.loader_laws.specs.Plans.{IsPlanOfImage, IsPlanOfLink};
ghost use Rattle.loader_laws.specs.Tellings.{AreNamed, AreWhole};
ghost use Rattle.command_line.specs.declared.command.Command.{Command as Commanded};
ghost use Rattle.mo_types.specs.declared.loaded.LoadedFile.{LoadedFile};

/// What files link to, whose ids rise, each of which is cut into the pieces of its object and has at most 255 sections, is an
/// image of the atoms that are kept, with the slots that they need: no name of theirs leads nowhere, and each reference can be
/// met.
pub fn what_is_linked_is_an_image()
    ensures { (command : Commanded) (libs : LibraryGraph) (files : List LoadedFile) (image : List ℕ)
        → AreOrdered files → AreCut files → All IsLow files → IsLinked command libs files (Ok image) → IsImageOf command libs files image }
{}

/// What is planned for words and what the files tell is the image to which the files link that the command's inputs load,
/// objects and members of archives, with the libraries that its stub libraries tell.
pub fn a_plan_is_a_linked_image()
    ensures { (words : List (List ℕ)) (look : List ℕ → File) (plan : Plan) → IsVerdict words look (Ok plan) → IsPlanOfImage words look plan }
{}

/// What whole files link to, whose ids rise, is an image that links them: the kept atoms stand apart in memory, each byte as
/// its object has it but for the fields of its references, which tell where these lead; the loader fills in their pointers and
/// slots; a program begins at its entry; and the image tells how their functions are unwound. Names hold no NUL, common symbols
/// are external, instructions stand in regular sections, nothing is aligned to more than a page, unwind entries are those of
/// objects, and libraries have ordinals of an image.
pub fn what_is_linked_is_a_link()
    ensures { (command : Commanded) (libs : LibraryGraph) (files : List LoadedFile) (image : List ℕ)
        → AreOrdered files → AreWhole files → AreNamed command libs files → IsLinked command libs files (Ok image) → IsLinkOf command libs files image }
{}

/// What is planned for words and what the files have, which are bytes, is an image that links the files that are loaded.
pub fn a_plan_is_a_link()
    ensures { (words : List (List ℕ)) (look : List ℕ → File) (plan : Plan) → IsVerdict words look (Ok plan) → HaveBytes look → IsPlanOfLink words look plan }
{}

/// Names of what is planned hold no NUL, its common symbols are external, its instructions stand in regular sections, nothing of
/// it is aligned to more than a page, and its unwind entries are those of objects; and where files have bytes objects are whole.
/// A map of what files told has bytes under each path.
pub fn what_is_planned_is_of_whole_objects()
    ensures whole { (words : List (List ℕ)) (look : List ℕ → File) (plan : Plan) (is : IsPlanOfImage words look plan) → HaveBytes look → AreWhole is.loaded.files }
    ensures named { (words : List (List ℕ)) (look : List ℕ → File) (plan : Plan) (is : IsPlanOfImage words look plan) → AreNamed is.command is.libs is.loaded.files }
    ensures told { (told : List Exchange) → AreOfBytes told → HaveBytes (file_told told) }
{}
