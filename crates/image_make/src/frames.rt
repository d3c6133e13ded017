//! `__unwind_info` of an image.
ghost use Rattle.std.specs.Prelude.{◌≡◌, ◌≢◌, [], IfErr, IfOk};
ghost use Rattle.image_make.specs.Inputs.{inputs_of};
ghost use Rattle.image_make.specs.Made.{HoldsRows, scene_of};
ghost use Rattle.image_make.specs.declared.fault.MakeFault.TheVariants as fault;
ghost use Rattle.image_make.specs.inner.Laying.{AreReadyEntries, IsInfoSize};
ghost use Rattle.unwind_link.specs.Rows.{AreRows};
ghost use Rattle.unwind_out.specs.Table.{AreApart};

use crate::fault::MakeFault;
use crate::front::base_of;
use crate::making::ImageInputs;
use mo_types::Bytes;
use ref_meet::Scene;
use sect_place::Layout;
use std::alloc::Global;
use unwind_link::unwind_rows;
use unwind_out::{UnwindLimit, UnwindRows, unwind_size, write_unwind};

// The rows of an image's unwind entries, by where everything stands.
fn rows_in(alloc: Global, inputs: &ImageInputs, layout: &Layout) -> Result<UnwindRows, MakeFault>
    requires { AreReadyEntries (scene_of (inputs_of inputs.now) layout.now) inputs.now.unwinds.now }
    ensures rows { IfOk result (AreRows (scene_of (inputs_of inputs.now) layout.now) inputs.now.unwinds.now) }
    ensures apart { IfOk result AreApart }
    ensures fault { IfErr result (λ why. why ≡ fault.OutOfMemory) }
{
    let scene = Scene {
        loaded: inputs.loaded,
        goals: inputs.goals,
        symbols: inputs.symbols,
        layout,
        slots: inputs.slots,
        base: base_of(inputs.command),
    };
    Ok(unwind_rows(alloc, &scene, inputs.unwinds)?)
}

/// How many bytes `__unwind_info` has that holds them.
pub(crate) fn info_size(
    alloc: Global,
    inputs: &ImageInputs,
    layout: &Layout,
) -> Result<u64, MakeFault>
    requires { AreReadyEntries (scene_of (inputs_of inputs.now) layout.now) inputs.now.unwinds.now }
    ensures size { IfOk result (IsInfoSize (scene_of (inputs_of inputs.now) layout.now) inputs.now.unwinds.now) }
    ensures fault { IfErr result (λ why. why ≡ fault.OutOfMemory) }
{
    let rows = rows_in(alloc, inputs, layout)?;
    match unwind_size(alloc, &rows) {
        Ok(size) => Ok(size),
        Err(UnwindLimit::Personalities) => unreachable!(),
        Err(UnwindLimit::OutOfMemory) => Err(MakeFault::OutOfMemory),
    }
}

/// Its bytes.
pub(crate) fn info_of(
    alloc: Global,
    inputs: &ImageInputs,
    layout: &Layout,
) -> Result<Bytes, MakeFault>
    requires some { inputs.now.unwinds.now ≢ [] }
    requires ready { AreReadyEntries (scene_of (inputs_of inputs.now) layout.now) inputs.now.unwinds.now }
    ensures info { IfOk result (HoldsRows (scene_of (inputs_of inputs.now) layout.now) inputs.now.unwinds.now) }
    ensures fault { IfErr result (λ why. why ≡ fault.OutOfMemory) }
{
    let rows = rows_in(alloc, inputs, layout)?;
    match write_unwind(alloc, &rows) {
        Ok(info) => Ok(info),
        Err(UnwindLimit::Personalities) => unreachable!(),
        Err(UnwindLimit::OutOfMemory) => Err(MakeFault::OutOfMemory),
    }
}
