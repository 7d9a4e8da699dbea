//! Laws of a window's metrics. The function computes nothing: its contract is the law.
ghost use Rattle.std.specs.Prelude.{ℕ, ◌+◌, ◌*◌, ◌<◌, ◌≤◌};
ghost use Rattle.model_receiver.specs.Borders.{IsBorder};
ghost use Rattle.model_receiver.specs.Paths.{Window, width, best_to, best_from};
ghost use Rattle.window_decode.specs.Ranges.{IsSoft, part_before, part_from};
ghost use Rattle.window_decode.specs.Recursions.{AreNear};

/// The spread of a window's metrics, those of the paths to each state and those of the paths from each state.
/// One position widens it by at most 127 + 511 + 127 = 765. After three positions it is at most
/// 3 * 765 = 2295, whatever the border was. So from a border, whose metrics differ by at most 4096, it is at
/// most 4096 + 2295 = 6391 at any width.
pub fn metrics_stay_near()
    ensures to_widens { (w : Window) (j n : ℕ) → IsSoft w → j < width w
        → AreNear n (best_to (part_before w j)) → AreNear (n + 765) (best_to (part_before w (j + 1))) }
    ensures from_widens { (w : Window) (j n : ℕ) → IsSoft w → j < width w
        → AreNear n (best_from (part_from w (j + 1))) → AreNear (n + 765) (best_from (part_from w j)) }
    ensures to_by_width { (w : Window) → IsSoft w → IsBorder w.start
        → AreNear (4096 + 765 * width w) (best_to w) }
    ensures from_by_width { (w : Window) → IsSoft w → IsBorder w.end
        → AreNear (4096 + 765 * width w) (best_from w) }
    ensures to_after_three { (w : Window) → IsSoft w → 3 ≤ width w → AreNear 2295 (best_to w) }
    ensures from_after_three { (w : Window) → IsSoft w → 3 ≤ width w → AreNear 2295 (best_from w) }
    ensures to_at_any_width { (w : Window) → IsSoft w → IsBorder w.start → AreNear 6391 (best_to w) }
    ensures from_at_any_width { (w : Window) → IsSoft w → IsBorder w.end → AreNear 6391 (best_from w) }
{}
