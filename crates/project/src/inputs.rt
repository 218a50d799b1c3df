//! What was last said of each input.
ghost use Rattle.std.specs.Prelude.{◌≡◌};
ghost use Rattle.base.specs.Stores.{cells};
ghost use Rattle.scripts.specs.Script.{inputs_after};

use base::VARIABLES;
use scripts::script::Input;

/// Notes what a line says of the inputs; those that it does not name stay.
pub fn note_inputs(outside: &mut [u16; VARIABLES], inputs: &[Input])
    ensures { cells outside.new ≡ inputs_after (cells outside.old) inputs.now }
{
    for input in inputs {
        // with `get_mut` the proof of the loop did not close
        let at = input.variable as usize;
        if at < VARIABLES {
            outside[at] = input.value;
        }
    }
}
