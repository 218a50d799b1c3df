//! Variables with their values: all of those that are kept, and those that changed.
ghost use Rattle.std.specs.Prelude.{◌≡◌, ◌≤◌, length, IfOk};
ghost use Rattle.base.specs.Stores.{cells, region};
ghost use Rattle.project.specs.Play.{values_from, changed_from};

use base::VARIABLES;
use reports::report::Setting;
use std::alloc::{AllocError, Global};

/// The variables' values, which stand first in the controller's memory.
pub(crate) fn values_in(memory: &[u64]) -> [u64; VARIABLES]
    requires { 64 ≤ length memory.now }
    ensures { cells result ≡ region memory.now 0 64 }
{
    let mut values = [0; VARIABLES];
    values.copy_from_slice(&memory[..VARIABLES]);
    values
}

/// The first variables with their values.
pub(crate) fn first_settings(
    heap: Global,
    count: usize,
    values: &[u64; VARIABLES],
) -> Result<Vec<Setting>, AllocError>
    requires { count ≤ 64 }
    ensures { IfOk result (λ v. v.items ≡ values_from 0 count (cells values.now)) }
{
    let mut all = Vec::new(heap);
    for (i, value) in values[..count].iter().enumerate() {
        all.push(Setting {
            variable: i as u8,
            value: *value,
        })?;
    }
    Ok(all)
}

/// The variables that show another value than before.
pub(crate) fn changed_settings(
    heap: Global,
    before: &[u64; VARIABLES],
    shown: &[u64; VARIABLES],
) -> Result<Vec<Setting>, AllocError>
    ensures { IfOk result (λ v. v.items ≡ changed_from 0 64 (cells before.now) (cells shown.now)) }
{
    let mut all = Vec::new(heap);
    // The index names the variable, so what it showed before is read by it too: zipped, the loop would count all the same.
    for (i, value) in shown.iter().enumerate() {
        if *value != before[i] {
            all.push(Setting {
                variable: i as u8,
                value: *value,
            })?;
        }
    }
    Ok(all)
}
