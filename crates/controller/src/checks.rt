//! The checks that requests share, in the order of the refusals' numbers.
ghost use Rattle.std.specs.Prelude.{◌≡◌, ◌≤◌, length};
ghost use Rattle.base.specs.Refusals.{Answered};
ghost use Rattle.controller.specs.Requests.{kept_refusal, length_refusal, start_refusal, point_refusal, StartFits, PointFits};

use crate::layout::*;
use crate::memory::Memory;
use base::Refusal;

/// Refuses more kept variables than there are.
pub(crate) fn check_kept(kept: u64) -> Result<(), Refusal>
    ensures { Answered result (kept_refusal kept) (λ _. kept ≤ 64) (Unit {0}) }
{
    if kept > VARIABLES as u64 {
        return Err(Refusal::Length(0));
    }
    Ok(())
}

/// Refuses a list of another length than is wanted, the parameter at `place` of the call.
pub(crate) fn check_length(have: usize, wanted: usize, place: u64) -> Result<(), Refusal>
    ensures { Answered result (length_refusal have wanted place) (λ _. have ≡ wanted) (Unit {0}) }
{
    if have != wanted {
        return Err(Refusal::Length(place));
    }
    Ok(())
}

/// The list as one with an item for each variable; refuses one of another length, the parameter at `place` of the call.
pub(crate) fn whole<T>(list: &[T], place: u64) -> Result<&[T; VARIABLES], Refusal>
    ensures { Answered result (length_refusal (length list.now) 64 place) (λ all. (all.now ≡ list.now) × (length list.now ≡ 64)) (Unit {0}) }
{
    list.as_array().ok_or(Refusal::Length(place))
}

/// What works and start are lent.
pub(crate) fn check_start<'a>(
    kept: u64,
    firsts: &'a [u16],
    memory: &[u64],
) -> Result<&'a [u16; VARIABLES], Refusal>
    ensures { Answered result (start_refusal kept firsts.now memory.now) (λ all. (all.now ≡ firsts.now) × StartFits kept firsts.now memory.now) (Unit {0}) }
{
    check_kept(kept)?;
    let firsts = whole(firsts, 1)?;
    Memory::new(kept, memory, 2)?;
    Ok(firsts)
}

/// What force and free are lent, the memory at `place` of the call. Gives the point as an index.
pub(crate) fn check_point(
    kept: u64,
    point: u64,
    memory: &[u64],
    place: u64,
) -> Result<usize, Refusal>
    ensures { Answered result (point_refusal kept point memory.now place) (λ i. (i ≡ point) × PointFits kept point memory.now) (Unit {0}) }
{
    check_kept(kept)?;
    Memory::new(kept, memory, place)?.check_power()?;
    if point > MAX_POINT {
        return Err(Refusal::Point(0));
    }
    Ok(point as usize)
}
