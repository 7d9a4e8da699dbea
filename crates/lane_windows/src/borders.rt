//! The borders of the windows of a half.
ghost use Rattle.std.specs.Prelude.{◌≡◌, ℕ, ◌<◌, IfOk, length, map};
ghost use Rattle.std.specs.List.{range_with_len};
ghost use Rattle.model_receiver.specs.HalfIteration.{start_by, end_by};
ghost use Rattle.lock_step.specs.Lanes.{border_at};
ghost use Rattle.lane_windows.specs.Borders.{HaveWindows};

use half_iteration::{BordersLeft, end_of};
use lte_bits::NoMemory;
use std::alloc::Global;
use window_decode::Border;

/// The borders between which each window runs, and its new borders.
#[derive(Drop)]
pub struct Borders {
    pub alpha_in: Vec<Border>,
    pub beta_in: Vec<Border>,
    pub alpha_out: Vec<Border>,
    pub beta_out: Vec<Border>,
}

impl Borders {
    /// Allocates the borders of `windows` windows.
    pub fn new(alloc: Global, windows: usize) -> Result<Borders, NoMemory>
        ensures { IfOk result (λ b. HaveWindows windows b) }
    {
        let alpha_in = vec![in alloc; Border::known(); windows]?;
        let beta_in = vec![in alloc; Border::unknown(); windows]?;
        let alpha_out = vec![in alloc; Border::unknown(); windows]?;
        let beta_out = vec![in alloc; Border::unknown(); windows]?;
        Ok(Borders {
            alpha_in,
            beta_in,
            alpha_out,
            beta_out,
        })
    }
}

/// Reads the borders that the windows left: each window starts at the forward one of the window before, the
/// first at the known border; it ends at the backward one of the next window, the last at the tail's.
pub fn take_left(
    windows: usize,
    left: &[BordersLeft],
    tail: Border,
    alpha_in: &mut [Border],
    beta_in: &mut [Border],
)
    requires left { length left.now ≡ windows }
    requires alpha_in { length alpha_in.old ≡ length left.now }
    requires beta_in { length beta_in.old ≡ length left.now }
    ensures alpha_in { (t : ℕ) → t < length left.now
        → border_at alpha_in.new t ≡ start_by left.now t }
    ensures beta_in { (t : ℕ) → t < length left.now
        → border_at beta_in.new t ≡ end_by (length left.now) left.now tail t }
{
    let mut start = Border::known();
    for t in 0..windows {
        alpha_in[t] = start;
        beta_in[t] = end_of(left.len(), left, tail, t);
        let this = left[t];
        start = this.forward;
    }
}

/// Writes the borders that windows left.
pub fn leave(alpha_out: &[Border], beta_out: &[Border], left: &mut [BordersLeft])
    requires alpha_out { length alpha_out.now ≡ length left.old }
    requires beta_out { length beta_out.now ≡ length left.old }
    ensures { left.new
        ≡ map (λ t. record { forward = border_at alpha_out.now t; backward = border_at beta_out.now t })
        (range_with_len 0 (length left.old)) }
{
    for (t, left) in left.iter_mut().enumerate() {
        *left = BordersLeft {
            forward: alpha_out[t],
            backward: beta_out[t],
        };
    }
}
