//! The borders that a window hands to its neighbours.
ghost use Rattle.std.specs.Prelude.{◌≡◌, ◌<◌, length};
ghost use Rattle.model_receiver.specs.HalfIteration.{none_left, end_by};

use std::marker::Model;
use window_decode::Border;

/// The borders that a window hands on: the forward one to the next window, the backward one to the window
/// before.
#[derive(Clone, Copy)]
pub struct BordersLeft {
    pub forward: Border,
    pub backward: Border,
}

impl Model for BordersLeft {
    ghost use Rattle.model_receiver.specs.HalfIteration.{BordersLeft as Borders};

    ghost Value = { Borders };

    ghost view = { λ l. record { forward = l.forward; backward = l.backward } };

    ghost inverse = { λ l. record { forward = l.forward; backward = l.backward } };
}

impl BordersLeft {
    /// Returns the borders before the first half, at which the state is unknown.
    pub fn none() -> BordersLeft
        ensures { result ≡ none_left }
    {
        BordersLeft {
            forward: Border::unknown(),
            backward: Border::unknown(),
        }
    }
}

/// Returns the border at the end of window `t`: the next window's backward border, or for the last window
/// that of the tail.
pub fn end_of(windows: usize, left: &[BordersLeft], tail: Border, t: usize) -> Border
    requires window { t < windows }
    requires left { length left.now ≡ windows }
    ensures { result ≡ end_by windows left.now tail t }
{
    if t + 1 == windows {
        tail
    } else {
        let next = left[t + 1];
        next.backward
    }
}
