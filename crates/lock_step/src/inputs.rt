//! The inputs of windows in lock step: the borders between which they run, and their soft values.
use window_decode::Border;

/// The borders between which N windows run: window `t` starts from the forward metrics `alpha[t]`, and ends
/// at the backward metrics `beta[t]`.
#[derive(Clone, Copy)]
pub struct BordersIn<'a> {
    pub alpha: &'a [Border],
    pub beta: &'a [Border],
}

/// The soft values of N windows by rows: row `j` has in lane `t` those of position `j` of window `t`.
#[derive(Clone, Copy)]
pub struct SoftRows<'a, const N: usize> {
    pub systematic: &'a [[i16; N]],
    pub parity: &'a [[i16; N]],
}
