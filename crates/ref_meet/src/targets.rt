//! The goals of the targets of a placed atom's references.
ghost use Rattle.std.specs.Prelude.{◌≡◌, ◌<◌, IfOk, IfSome, length, unwrap_or};
ghost use Rattle.std.specs.Option.{option_copied, option_map_or};
ghost use Rattle.image_read.specs.Reaches.{is_looked_up};
ghost use Rattle.mo_types.specs.declared.goal.Goal.TheVariants as goals;
ghost use Rattle.mo_types.specs.declared.reference.Target.TheVariants as targets;
ghost use Rattle.ref_meet.specs.Ready.{IsSound, scene_of};
ghost use Rattle.ref_meet.specs.Scene.{goal_of};
ghost use Rattle.ref_meet.specs.Template as template;
ghost use Rattle.ref_meet.specs.inner.Rows.{IsRow};
ghost use Rattle.resolve.specs.Goals.{goal_at};
ghost use Rattle.resolve.specs.Table.{goal_in};

use crate::row::Row;
use crate::scene::Scene;
use crate::template::leads_to_template;
use mo_types::{AtomKey, Goal, OutOfMemory, Target};

/// The place in the pool of the goal of the symbol of an index, if the row's file has so many.
pub(crate) fn place_of(scene: &Scene, row: &Row, index: u32) -> Option<usize>
    requires { IsRow (scene_of scene.now) scene.now.goals.now.pool row.now }
    ensures within { IfSome result (λ place. place < length scene.now.goals.now.pool) }
    ensures goal { goal_of (scene_of scene.now) row.now.item.now.file (targets.Name index) ≡ option_map_or (goal_in scene.now.goals.now.pool) result goals.Nobody }
{
    match &row.goals {
        Some(goals) => goals.place(index as usize),
        None => None,
    }
}

/// The goal of the symbol of an index, if the row's file has so many.
pub(crate) fn named_goal<'a>(scene: &Scene<'a>, row: &Row, index: u32) -> Option<&'a Goal>
    requires { IsRow (scene_of scene.now) scene.now.goals.now.pool row.now }
    ensures { goal_of (scene_of scene.now) row.now.item.now.file (targets.Name index) ≡ unwrap_or (option_copied result) goals.Nobody }
{
    match place_of(scene, row, index) {
        Some(place) => Some(&scene.goals.pool()[place]),
        None => None,
    }
}

/// Whether a pointer of the row's atom to a goal holds an offset in the template of thread-local variables.
pub(crate) fn holds_offset(scene: &Scene, row: &Row, goal: &Goal) -> bool
    requires sound { IsSound (scene_of scene.now) }
    requires row { IsRow (scene_of scene.now) scene.now.goals.now.pool row.now }
    ensures { result ≡ template.holds_offset scene.now.loaded.now.files row.now.item.now goal.now }
{
    row.descriptors && leads_to_template(scene.loaded.files.as_slice(), goal)
}

/// The goal of a place in an atom.
pub(crate) fn local_goal(scene: &Scene, atom: AtomKey, offset: u64) -> Goal
    ensures { result ≡ goal_at scene.now.symbols.now.literals atom offset }
{
    Goal::Def(scene.symbols.representative(atom), offset)
}

/// Whether the loader looks up the goal of a target by its name.
#[tactic(auto, unfolding(crate::specs::Scene::goal_of))]
pub(crate) fn leads_to_looked_up(scene: &Scene, row: &Row, target: &Target) -> bool
    requires { IsRow (scene_of scene.now) scene.now.goals.now.pool row.now }
    ensures { result ≡ is_looked_up (goal_of (scene_of scene.now) row.now.item.now.file target.now) }
{
    match *target {
        Target::Name(index) => match named_goal(scene, row, index) {
            Some(goal) => matches!(
                goal,
                Goal::WeakSelf(_, _, _) | Goal::Import { .. } | Goal::Flat(_)
            ),
            None => false,
        },
        Target::Local(_, _) => false,
    }
}

/// The goal of a target.
#[tactic(auto, unfolding(crate::specs::Scene::goal_of))]
pub(crate) fn target_goal(scene: &Scene, row: &Row, target: &Target) -> Result<Goal, OutOfMemory>
    requires { IsRow (scene_of scene.now) scene.now.goals.now.pool row.now }
    ensures { IfOk result (λ goal. goal ≡ goal_of (scene_of scene.now) row.now.item.now.file target.now) }
{
    match *target {
        Target::Name(index) => match named_goal(scene, row, index) {
            Some(goal) => Ok(goal.clone()?),
            None => Ok(Goal::Nobody),
        },
        Target::Local(atom, offset) => Ok(local_goal(scene, atom, offset)),
    }
}
