//! A placed atom with what its references are met by.
ghost use Rattle.std.specs.Prelude.{◌≡◌, MatchOption, None, slice_get};
ghost use Rattle.ref_meet.specs.Ready.{IsSound, scene_of};
ghost use Rattle.ref_meet.specs.inner.Orders.{AreOrders};
ghost use Rattle.ref_meet.specs.inner.Rows.{IsRow};

use crate::orders::FileOrders;
use crate::scene::Scene;
use crate::template::has_descriptors;
use liveness::next_spots;
use mo_types::RefList;
use patch::PlacedWork;
use resolve::FileGoals;

/// A placed atom of a loaded file, with the references of the file.
#[derive(Drop)]
pub(crate) struct Row<'a> {
    pub item: &'a PlacedWork,
    pub refs: &'a RefList,
    /// Those of the file's symbols.
    pub goals: Option<FileGoals<'a>>,
    /// The atom's references, by their places in the file's list.
    pub indices: &'a [u32],
    /// Its section holds descriptors of thread-local variables.
    pub descriptors: bool,
}

/// The row of a placed atom, or `None` where it is of no file. Its references mostly stand where those of the last one ended.
pub(crate) fn row_of<'a>(
    scene: &Scene<'a>,
    orders: &'a FileOrders,
    item: &'a PlacedWork,
    next: &mut usize,
) -> Option<Row<'a>>
    requires sound { IsSound (scene_of scene.now) }
    requires orders { AreOrders scene.now.loaded.now.files orders.now }
    ensures row { MatchOption result (slice_get scene.now.loaded.now.files item.now.file ≡ None) (IsRow (scene_of scene.now) scene.now.goals.now.pool) }
    ensures item { MatchOption result (Unit {0}) (λ row. row.item.now ≡ item.now) }
{
    let file = scene.loaded.files.get(item.file)?;
    let Some(order) = orders.get(item.file) else {
        unreachable!()
    };
    let key = item.atom.key;
    let indices = next_spots(&file.refs, order.as_slice(), next, key.section, key.offset);
    Some(Row {
        item,
        refs: &file.refs,
        goals: scene.goals.file(item.file),
        indices,
        descriptors: has_descriptors(file, key.section),
    })
}
