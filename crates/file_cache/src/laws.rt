//! What holds of programs that were run, each on a call that does nothing.
ghost use Rattle.std.specs.Prelude.{ℕ, List, [], Some};
ghost use Rattle.mo_outside.specs.Answers.{Exchange};
ghost use Rattle.mo_outside.specs.Files.{FileMap};
ghost use Rattle.file_cache.specs.Runs.{AllAgree, AllRead, AreNew, Gave, file_in, file_told, fresh, paths_in};

/// The paths for which files are asked are asked for once, and none of them was kept.
pub fn each_path_is_asked_once()
    ensures { (known tried : List (List ℕ)) → AreNew known (fresh known tried) }
{}

/// Where files tell what they hold and each could be read, what they answered is what they hold: so a program's end is that
/// over them.
pub fn answers_are_those_of_the_files()
    ensures { (files : FileMap) (asked : List Exchange) → AllAgree (Some files) asked → AllRead asked → Gave (file_in files) asked }
{}

/// Where each path was asked for once, what was answered is what is told of it.
pub fn answers_are_what_is_told()
    ensures { (told : List Exchange) → AreNew [] (paths_in told) → Gave (file_told told) told }
{}
