//! What kept atoms are, on a call that does nothing.
ghost use Rattle.std.specs.Prelude.{◌≡◌, List};
ghost use Rattle.std.specs.List.{filter};
ghost use Rattle.mark_core.specs.Kept.{IsKept, begins_away, leads_away};
ghost use Rattle.mo_types.specs.declared.edge.Edge.{Edge};
ghost use Rattle.mo_types.specs.declared.key.AtomKey.{AtomKey};

/// There are kept atoms, whatever the edges, supports and roots.
pub fn kept_atoms_exist()
    ensures { (edges supports : List Edge) (roots : List AtomKey) → (kept : List AtomKey) × IsKept edges supports roots kept }
{}

/// The kept atoms of the same edges, supports and roots are one list.
pub fn kept_atoms_are_one_list()
    ensures { (edges supports : List Edge) (roots a b : List AtomKey) → IsKept edges supports roots a → IsKept edges supports roots b → a ≡ b }
{}

/// Edges that end in a root, and supports that begin in one, add nothing to what is kept.
pub fn what_leads_to_roots_adds_nothing()
    ensures { (edges supports : List Edge) (roots kept : List AtomKey)
        → IsKept (filter (leads_away roots) edges) (filter (begins_away roots) supports) roots kept → IsKept edges supports roots kept }
{}
