//! Where everything of an image stands.
ghost use Rattle.std.specs.Prelude.{◌≡◌, ◌≢◌, [], IfErr, IfOk};
ghost use Rattle.image_make.specs.Atoms.{AreLow, AreRising};
ghost use Rattle.image_make.specs.Frames.{HaveFrames};
ghost use Rattle.image_make.specs.Inputs.{inputs_of, inputs_with};
ghost use Rattle.image_make.specs.Made.{IsLaid, kept_of};
ghost use Rattle.image_make.specs.inner.Filled.{IsLayFault, IsPlanFault};
ghost use Rattle.image_make.specs.inner.Laying.{AreReadySections, IsFirstSize, IsPlacedWith, plan_sized};
ghost use Rattle.mo_types.specs.Loaded.{IsWholeLoaded};
ghost use Rattle.sect_place.specs.Addresses.{AreOnce};
ghost use Rattle.sect_place.specs.Whole.{IsWholeLayout};

use crate::fault::MakeFault;
use crate::frames::{info_of, info_size};
use crate::kept::KeptList;
use crate::making::ImageInputs;
use load_cmds::{PartKinds, other_size};
use mo_types::{Bytes, OutSections};
use sect_list::out_sections;
use sect_place::{Layout, PlaceFault, PlaceSizes, place};
use std::alloc::Global;

/// Which parts of `__LINKEDIT` are there: exports, symbols, the UUID and the signature come with a later version.
pub(crate) const PARTS_THERE: PartKinds = PartKinds {
    fixups: true,
    trie: false,
    symbols: false,
    uuid: false,
    signature: false,
};

/// Where everything of an image stands, and the bytes of its `__unwind_info`.
#[derive(Drop)]
pub(crate) struct Laying {
    pub layout: Layout,
    pub info: Bytes,
}

// Where everything of an image with some atoms stands, with so many bytes of `__unwind_info`, or how many bytes it would
// have, where these are 2^32 or more.
fn placed(
    alloc: Global,
    inputs: &ImageInputs,
    kept: &KeptList,
    sections: &OutSections,
    unwind: u64,
) -> Result<Layout, MakeFault>
    requires { AreReadySections (inputs_of inputs.now) kept.now sections.now }
    ensures placed { IfOk result (IsPlacedWith (inputs_of inputs.now) unwind) }
    ensures fault { IfErr result (IsPlanFault (plan_sized (inputs_of inputs.now) unwind)) }
{
    let command = inputs.command;
    let sizes = PlaceSizes {
        commands: other_size(PARTS_THERE, command, inputs.libs),
        unwind,
    };
    match place(
        alloc,
        kept.atoms(),
        sections,
        inputs.slots,
        inputs.islands,
        &sizes,
        command,
    ) {
        Ok(layout) => Ok(layout),
        Err(PlaceFault::OutOfMemory) => Err(MakeFault::OutOfMemory),
        Err(fault) => Err(MakeFault::Place(fault)),
    }
}

// How many bytes `__unwind_info` has, by where everything stands with one byte of it.
fn first_size(
    alloc: Global,
    inputs: &ImageInputs,
    kept: &KeptList,
    sections: &OutSections,
) -> Result<u64, MakeFault>
    requires some { inputs.now.unwinds.now ≢ [] }
    requires ready { AreReadySections (inputs_of inputs.now) kept.now sections.now }
    ensures size { IfOk result (IsFirstSize (inputs_of inputs.now)) }
    ensures fault { IfErr result (IsLayFault (inputs_of inputs.now)) }
{
    let layout = placed(alloc, inputs, kept, sections, 1)?;
    info_size(alloc, inputs, &layout)
}

// Where everything stands with `__unwind_info`, and its bytes.
fn laid_with_info(
    alloc: Global,
    inputs: &ImageInputs,
    kept: &KeptList,
    sections: &OutSections,
) -> Result<Laying, MakeFault>
    requires some { inputs.now.unwinds.now ≢ [] }
    requires ready { AreReadySections (inputs_of inputs.now) kept.now sections.now }
    ensures laid { IfOk result (λ laying. IsLaid (inputs_with inputs.now laying.info) laying.layout) }
    ensures fault { IfErr result (IsLayFault (inputs_of inputs.now)) }
{
    let size = first_size(alloc, inputs, kept, sections)?;
    let layout = placed(alloc, inputs, kept, sections, size)?;
    let info = info_of(alloc, inputs, &layout)?;
    Ok(Laying { layout, info })
}

// Where everything stands without it.
fn laid_without(
    alloc: Global,
    inputs: &ImageInputs,
    kept: &KeptList,
    sections: &OutSections,
) -> Result<Laying, MakeFault>
    requires none { inputs.now.unwinds.now ≡ [] }
    requires ready { AreReadySections (inputs_of inputs.now) kept.now sections.now }
    ensures laid { IfOk result (λ laying. IsLaid (inputs_with inputs.now laying.info) laying.layout) }
    ensures fault { IfErr result (IsLayFault (inputs_of inputs.now)) }
{
    let layout = placed(alloc, inputs, kept, sections, 0)?;
    let info = Bytes::new();
    Ok(Laying { layout, info })
}

/// Where everything of an image with some atoms stands, with `__unwind_info` where it has unwind entries, or why there is no
/// such place. It is placed twice with them, as the rows of `__unwind_info` hang on addresses: first with one byte, and then
/// with as many as rows have.
pub(crate) fn lay_out(
    alloc: Global,
    inputs: &ImageInputs,
    kept: &KeptList,
) -> Result<Laying, MakeFault>
    requires whole { IsWholeLoaded inputs.now.loaded.now }
    requires rising { AreRising (kept_of (inputs_of inputs.now)) }
    requires low { AreLow (kept_of (inputs_of inputs.now)) }
    requires frames { HaveFrames (inputs_of inputs.now) }
    requires kept { kept.now ≡ kept_of (inputs_of inputs.now) }
    ensures laid { IfOk result (λ laying. IsLaid (inputs_with inputs.now laying.info) laying.layout) }
    ensures whole { IfOk result (λ laying. IsWholeLayout laying.layout) }
    ensures once { IfOk result (λ laying. AreOnce laying.layout.placed) }
    ensures fault { IfErr result (IsLayFault (inputs_of inputs.now)) }
{
    let sections = out_sections(alloc, inputs.loaded, kept.atoms())?;
    if inputs.unwinds.is_empty() {
        laid_without(alloc, inputs, kept, &sections)
    } else {
        laid_with_info(alloc, inputs, kept, &sections)
    }
}
