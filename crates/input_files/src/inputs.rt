//! The inputs of which files are loaded.
use crate::sources::Source;
use mo_types::{Items, LoadedList};
use std::marker::Model;

/// Objects and archives, each with the archive that it is, if it is one.
pub type SourceList = Items<Source>;

/// The inputs of which files are loaded: objects and archives, whose positions rise, and the files of the objects, one for
/// each in their order. Contracts see the inputs and these files.
#[derive(Drop)]
pub struct Inputs {
    pub sources: SourceList,
    pub objects: LoadedList,
}

impl Model for Inputs {
    ghost use Rattle.input_files.specs.Inputs.{AreInputs, InputFiles};
    ghost use Rattle.input_files.specs.Sources.{inputs_of};

    ghost Value = { InputFiles };

    ghost view = { λ i. record { inputs = inputs_of i.sources; objects = i.objects } };

    ghost invariant = { λ i. AreInputs (record { inputs = inputs_of i.sources; objects = i.objects }) };
}
