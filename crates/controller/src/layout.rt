//! Where the parts of the lent memory stand: values, marks of forced points, the numbers that they are forced to, on, the fault lamp, and the device.
ghost use Rattle.std.specs.Prelude.{◌≡◌, min};
ghost use Rattle.retain.specs.Device.{cell_count};
ghost use Rattle.controller.specs.Layout.{memory_length};

// The variables' values stand first.
pub use base::VARIABLES;

/// A mark for each point: 1 where it is forced. Marks are numbers, since the memory that C lends is one list of numbers.
pub(crate) const FORCED: usize = VARIABLES;

/// The numbers that points are forced to.
pub(crate) const FORCE: usize = 128;

/// 1 where the controller is on.
pub(crate) const ON: usize = 192;

/// 1 where the fault lamp is lit.
pub const LAMP: usize = 193;

/// The memory that outlasts power cuts.
pub const DEVICE: usize = 194;

/// The most numbers that a device has, and a list of all its writes: every variable is kept.
pub const MAX_DEVICE: usize = 2 * (VARIABLES + 2);

/// The most numbers that a memory has.
pub const MAX_MEMORY: usize = DEVICE + MAX_DEVICE;

/// The largest word.
pub(crate) const MAX_WORD: u64 = 65535;

/// The largest number of a point.
pub(crate) const MAX_POINT: u64 = 63;

/// How many numbers the device for so many kept variables has, and a list of all its writes. There are no more than 64 to keep.
pub fn device_length(kept: u64) -> usize
    ensures { result ≡ cell_count (min kept 64) }
{
    2 * (kept.min(VARIABLES as u64) as usize + 2)
}

/// How many numbers the memory of a controller that keeps so many variables has.
pub fn memory_length(kept: u64) -> usize
    ensures { result ≡ memory_length (min kept 64) }
{
    DEVICE + device_length(kept)
}
