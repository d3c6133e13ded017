//! What the references of an image's atoms mean in it.
ghost use Rattle.std.specs.Prelude.{◌≡◌, ◌++◌, IfOk, OnOk};
ghost use Rattle.ref_meet.specs.Mets.{mets_of};
ghost use Rattle.ref_meet.specs.Ready.{AreInOrder, IsReady, IsSound, met_by, scene_of};
ghost use Rattle.ref_meet.specs.inner.Met.{IsReadyFor};
ghost use Rattle.ref_meet.specs.inner.Orders.{AreOrders};

use crate::mets::{Setting, add_mets};
use crate::orders::FileOrders;
use crate::places::{GoalPlaces, pool_places};
use crate::row::row_of;
use crate::scene::Scene;
use crate::template::template_start;
use fixup_chain::ChainWord;
use mo_types::OutOfMemory;
use patch::{Meeting, Met, PlacedWork};
use slot_place::{SlotStarts, slot_starts};
use std::alloc::Global;

/// What the references of an image's atoms mean: the addresses that they tell, and the words of pointers.
#[derive(Drop)]
pub struct AtomReferences<'a> {
    scene: Scene<'a>,
    starts: SlotStarts,
    template: Option<u64>,
    words: &'a [ChainWord],
    orders: &'a FileOrders,
    places: Vec<GoalPlaces>,
}

// Puts the references of a placed atom behind others.
fn add_row_mets(
    mets: &mut Vec<Met>,
    setting: &Setting,
    orders: &FileOrders,
    next: &mut usize,
    item: &PlacedWork,
) -> Result<(), OutOfMemory>
    requires ready { IsReadyFor setting.now }
    requires orders { AreOrders setting.now.scene.now.loaded.now.files orders.now }
    ensures { OnOk result (mets.new.items ≡ mets.old.items ++ mets_of (scene_of setting.now.scene.now) setting.now.words.now item.now) }
{
    match row_of(setting.scene, orders, item, next) {
        Some(row) => add_mets(mets, setting, &row),
        None => Ok(()),
    }
}

impl<'a> AtomReferences<'a> {
    /// What references mean in a scene whose pointers have these words, in the order of their addresses. It takes memory for the
    /// addresses of each goal of the pool, and while these are looked up for a hint to each slot and stub.
    pub fn of(
        alloc: Global,
        scene: &Scene<'a>,
        orders: &'a FileOrders,
        words: &'a [ChainWord],
    ) -> Result<AtomReferences<'a>, OutOfMemory>
        requires sound { IsSound (scene_of scene.now) }
        requires orders { AreOrders scene.now.loaded.now.files orders.now }
        requires words { AreInOrder words.now }
        ensures ready { IfOk result IsReady }
        ensures mets { IfOk result (λ meets. met_by meets ≡ mets_of (scene_of scene.entry.now) words.entry.now) }
    {
        let starts = slot_starts(scene.layout);
        let template = template_start(scene.layout.sections.as_slice());
        let places = pool_places(alloc, scene, starts)?;
        Ok(AtomReferences {
            scene: *scene,
            starts,
            template,
            words,
            orders,
            places,
        })
    }
}

impl<'a> Meeting for AtomReferences<'a> {
    ghost ready = { IsReady };

    ghost mets_of = { met_by };

    fn meet(
        &self,
        item: &PlacedWork,
        next: &mut usize,
        mets: &mut Vec<Met>,
    ) -> Result<(), OutOfMemory> {
        let setting = Setting {
            scene: &self.scene,
            starts: self.starts,
            template: self.template,
            places: self.places.as_slice(),
            words: self.words,
        };
        add_row_mets(mets, &setting, self.orders, next, item)
    }
}
