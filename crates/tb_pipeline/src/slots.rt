//! Slots of a list.
ghost use Rattle.std.specs.Prelude.{◌≡◌, ◌<◌, length, slice_set};
ghost use lib.ListN.{get_elem?};
ghost use mathlib.Core.Option.{some};

use std::mem;

/// Replaces the value at `number`, and returns the old one.
pub(crate) fn swap_at<T>(slots: &mut [T], number: usize, value: T) -> T
    requires { number < length slots.old }
    ensures slots { slots.new ≡ slice_set slots.old number value }
    ensures value { get_elem? slots.old number ≡ some result }
{
    mem::replace(&mut slots[number], value)
}
