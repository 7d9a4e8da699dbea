//! The numbers of a code block's circular buffer (36.212 5.1.4.1.1, 5.1.4.1.2).
ghost use Rattle.std.specs.Prelude.{◌≡◌, ◌≤◌, ◌<◌, ◌*◌, Contains, sum_by};
ghost use Rattle.std.specs.List.{range_with_len};
ghost use Rattle.model_sender.specs.Interleaver.{sizes};
ghost use Rattle.model_sender.specs.Segmentation.{size};
ghost use Rattle.model_sender.specs.CircularBuffer.{Fits, buffer_length, buffer_size};
ghost use Rattle.model_sender.specs.CircularBuffer.{piece_length, rows_of, start};
ghost use Rattle.rate_match.specs.Matching.{IsMatch};

use crate::matching::{Buffer, Match};
use segmentation::plans::Plan;
use segmentation::size;

/// Returns R, the rows that a stream of k + 4 cells takes.
pub(crate) fn rows_of(k: usize) -> usize
    requires { k ≤ 6144 }
    ensures value { result ≡ rows_of k }
    ensures some { 0 < result }
    ensures few { result ≤ 193 }
{
    (k + 4).div_ceil(32)
}

/// Returns N_cb, the length of the soft buffer of block `r` (36.212, 5.1.4.1.2); `r` is below C.
pub fn buffer_len(m: &Match, plan: &Plan, r: usize) -> usize
    requires { r < plan.now.c }
    ensures value { result ≡ buffer_length m.now.limit plan.now.c (size plan.now r) }
    ensures within { result ≤ buffer_size (size plan.now r) }
    ensures kept { Fits m.now plan.now → 32 * rows_of (size plan.now r) ≤ result }
{
    let whole = 96 * rows_of(size(plan, r));
    match m.buffer() {
        Buffer::Full => whole,
        Buffer::Limited(limit) => whole.min(limit as usize / plan.c),
    }
}

/// Returns E_r, the bits that block `r` sends (36.212, 5.1.4.1.2); `r` is below C. Their sum is G.
pub fn piece_len(m: &Match, plan: &Plan, r: usize) -> usize
    requires { r < plan.now.c }
    ensures value { result ≡ piece_length m.now plan.now.c r }
    ensures whole { sum_by (piece_length m.now plan.now.c) (range_with_len 0 plan.now.c) ≡ m.now.g }
    ensures lawful { IsMatch m.now }
{
    let unit = usize::from(m.nl()) * usize::from(m.qm());
    let units = m.g() / unit;
    if r + units % plan.c < plan.c {
        unit * (units / plan.c)
    } else {
        unit * units.div_ceil(plan.c)
    }
}

/// Returns k0, the place where redundancy version `rv`, 0 to 3, starts in a buffer of `ncb` places of a
/// block of `k` bits (36.212, 5.1.4.1.2). K is one of the 188 sizes, and `ncb` is 1 to K_w.
pub fn start(k: usize, ncb: usize, rv: u8) -> usize
    requires size { Contains sizes k }
    requires some { 1 ≤ ncb }
    requires within { ncb ≤ buffer_size k }
    requires version { rv ≤ 3 }
    ensures { result ≡ start k ncb rv }
{
    let rows = rows_of(k);
    rows * (2 * ncb.div_ceil(8 * rows) * usize::from(rv) + 2)
}
