//! What edges and lost names mean, each on a call that does nothing.
ghost use Rattle.std.specs.Prelude.{List, None, Some, [], ℕ, ◌≡◌};
ghost use Rattle.std.specs.List.{flat_map};
ghost use Rattle.lib_bind.specs.declared.library.LibraryGraph.{LibraryGraph};
ghost use Rattle.command_line.specs.declared.command.Command.{Command};
ghost use Rattle.mo_types.specs.declared.loaded.LoadedFile.{LoadedFile};
ghost use Rattle.mo_types.specs.declared.reference.Target.{Target};
ghost use Rattle.liveness.specs.Edges.{edges, file_edges, file_supports, goal_atom, supports, target_atom};
ghost use Rattle.resolve.specs.Goals.{goal_of, goals_of_symbols};
ghost use Rattle.literal_merge.specs.Representatives.{representatives_of};
ghost use Rattle.liveness.specs.Undefined.{IsFirstLeast, least};

/// An edge leads to the atom of its reference's goal: what the goals of a file's symbols give for a target is where the
/// target leads.
pub fn edges_lead_to_goals()
    ensures { (files : List LoadedFile) (graph : LibraryGraph) (command : Command) (file : LoadedFile) (target : Target)
        → target_atom (representatives_of files) (goals_of_symbols files graph command file) target ≡ goal_atom (goal_of files graph command file target) }
{}

/// Edges and supports are those of each file, by the goals of its own symbols, file by file.
pub fn edges_are_file_by_file()
    ensures edges { (files : List LoadedFile) (graph : LibraryGraph) (command : Command)
        → edges files graph command ≡ flat_map (λ file. file_edges (representatives_of files) (goals_of_symbols files graph command file) file) files }
    ensures supports { (files : List LoadedFile) (graph : LibraryGraph) (command : Command)
        → supports files graph command ≡ flat_map (λ file. file_supports (representatives_of files) (goals_of_symbols files graph command file) file) files }
{}

/// The name that is told is the first of the least ones, and none is told exactly where there is no name.
#[tactic(auto, using(crate::proofs::LeastLemmas::leasts))]
pub fn the_least_name_is_told()
    ensures some { (pairs : List (List ℕ × List ℕ)) (p : List ℕ × List ℕ) → least pairs ≡ Some p → IsFirstLeast pairs p }
    ensures none { (pairs : List (List ℕ × List ℕ)) → least pairs ≡ None → pairs ≡ [] }
{}
