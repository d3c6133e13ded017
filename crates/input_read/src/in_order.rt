//! Inputs by rising positions.
ghost use Rattle.std.specs.Prelude.{◌↔◌, IsTrue};
ghost use Rattle.input_files.specs.Sources.{AreInOrder};

use input_files::Input;

/// Whether inputs stand by rising positions.
pub fn are_in_order(inputs: &[Input]) -> bool
    ensures { IsTrue result ↔ AreInOrder inputs.now }
{
    for i in 1..inputs.len() {
        if inputs[i - 1].position >= inputs[i].position {
            return false;
        }
    }
    true
}
