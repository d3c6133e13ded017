//! What holds of what inputs are, each on a call that does nothing.
ghost use Rattle.std.specs.Prelude.{◌≡◌, ◌↔◌, ℕ, ◌<◌, List, length, map, slice_index_or, true, All, IfErr, Err, Ok, Some};
ghost use Rattle.std.specs.Result.{result_err};
ghost use Rattle.lib_bind.specs.Named.{are_named};
ghost use Rattle.mo_types.specs.Scan.{first_some};
ghost use Rattle.input_files.specs.Files.{IsLoadFault};
ghost use Rattle.input_files.specs.Sources.{AreInOrder, object_reads};
ghost use Rattle.input_files.specs.declared.fault.LoadFault.{LoadFault};
ghost use Rattle.input_files.specs.declared.input.Input.{Input};
ghost use Rattle.input_read.specs.Opened.{Contents, contents_of, openings_of};
ghost use Rattle.input_read.specs.Opening.{opening_of};
ghost use Rattle.input_read.specs.declared.opening.Opening.{Opening};

/// There are as many openings as inputs, each what the input at its place is.
pub fn each_input_is_opened()
    ensures count { (inputs : List Input) (openings : List Opening) → openings_of inputs ≡ Ok openings → length openings ≡ length inputs }
    ensures each { (inputs : List Input) (openings : List Opening) (k : ℕ) (input : Input) (opening : Opening)
        → openings_of inputs ≡ Ok openings → k < length inputs → opening_of (slice_index_or inputs k input) ≡ Ok (slice_index_or openings k opening) }
{}

/// A fault is told exactly where an input has one, and is that of the first such input.
pub fn the_first_fault_is_told()
    ensures { (inputs : List Input) (fault : LoadFault)
        → (contents_of inputs ≡ Err fault) ↔ (first_some (λ input. result_err (opening_of input)) inputs ≡ Some fault) }
{}

/// The objects and archives stand in the order of the inputs.
pub fn inputs_keep_their_order()
    ensures { (inputs : List Input) (contents : Contents) → AreInOrder inputs → contents_of inputs ≡ Ok contents → AreInOrder contents.inputs }
{}

/// The objects are what each of the inputs is read as that is no archive.
pub fn objects_are_those_of_the_inputs()
    ensures { (inputs : List Input) (contents : Contents) → contents_of inputs ≡ Ok contents → object_reads contents.inputs ≡ map Ok contents.objects }
{}

/// The stub libraries stand by rising positions, each of an input, and each has documents.
pub fn stub_libraries_are_named()
    ensures { (inputs : List Input) (contents : Contents) (count : ℕ) → AreInOrder inputs → All (λ input. input.position < count) inputs
        → contents_of inputs ≡ Ok contents → are_named count 0 contents.stubs ≡ true }
{}

/// An input that isn't read has a fault of its own.
pub fn a_fault_is_told()
    ensures { (input : Input) → IfErr (opening_of input) IsLoadFault }
{}
