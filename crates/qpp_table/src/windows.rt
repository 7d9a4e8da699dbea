//! The number of windows into which a code block is divided.
ghost use Rattle.std.specs.Prelude.{ℕ, ◌*◌, ◌≤◌, Contains};
ghost use Prim.Native.Nat.{◌∣◌};
ghost use Rattle.model_sender.specs.Interleaver.{sizes};

/// Returns the greatest number of windows, at most `m`, that divide a block of `k` places and are at least 8
/// wide. `k` is one of the 188 sizes, and `m` is 1 to 64.
pub fn win(k: usize, m: usize) -> usize
    requires size { Contains sizes k }
    requires least { 1 ≤ m }
    requires most { m ≤ 64 }
    ensures divides { result ∣ k }
    ensures wide { 8 * result ≤ k }
    ensures within { result ≤ m }
    ensures greatest { (d : ℕ) → d ∣ k → 8 * d ≤ k → d ≤ m → d ≤ result }
{
    let mut best = 1;
    for count in 2..m + 1 {
        if k % count == 0 && 8 * count <= k {
            best = count;
        }
    }
    best
}
