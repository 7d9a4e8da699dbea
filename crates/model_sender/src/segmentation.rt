//! Laws of the segmentation plan and of the code blocks (36.212 5.1.2). Each function computes
//! nothing: its contract is the law.
ghost use Rattle.std.specs.Prelude.{◌≡◌, ℕ, ◌+◌, ◌*◌, ◌<◌, ◌≤◌, Contains, List, length};
ghost use Rattle.model_sender.specs.Interleaver.{sizes};
ghost use Rattle.model_sender.specs.Segmentation.{bits_of, carried, plan_of};
ghost use Rattle.model_sender.specs.CodeBlocks.{before, sequence, share};

/// A transport block of 1 to 18,722 bytes has 1 to 25 code blocks, at least one of them of size K+.
pub fn blocks_are_few()
    ensures some { (bytes : ℕ) → 1 ≤ bytes → bytes ≤ 18722 → 1 ≤ (plan_of bytes).c }
    ensures few { (bytes : ℕ) → 1 ≤ bytes → bytes ≤ 18722 → (plan_of bytes).c ≤ 25 }
    ensures counts { (bytes : ℕ) → 1 ≤ bytes → bytes ≤ 18722 →
        (plan_of bytes).c_plus + (plan_of bytes).c_minus ≡ (plan_of bytes).c }
    ensures larger { (bytes : ℕ) → 1 ≤ bytes → bytes ≤ 18722 → 1 ≤ (plan_of bytes).c_plus }
{}

/// K+ is the least size of which C blocks hold all bits that are carried.
pub fn larger_size_is_the_least()
    ensures size { (bytes : ℕ) → 1 ≤ bytes → bytes ≤ 18722 → Contains sizes (plan_of bytes).k_plus }
    ensures enough { (bytes : ℕ) → 1 ≤ bytes → bytes ≤ 18722 →
        carried (bits_of bytes) ≤ (plan_of bytes).c * (plan_of bytes).k_plus }
    ensures least { (bytes k : ℕ) → 1 ≤ bytes → bytes ≤ 18722 →
        Contains sizes k → carried (bits_of bytes) ≤ (plan_of bytes).c * k → (plan_of bytes).k_plus ≤ k }
{}

/// Where there are several blocks, K- is the greatest size below K+.
pub fn smaller_size_is_the_greatest()
    ensures size { (bytes : ℕ) → 1 ≤ bytes → bytes ≤ 18722 → 1 < (plan_of bytes).c →
        Contains sizes (plan_of bytes).k_minus }
    ensures below { (bytes : ℕ) → 1 ≤ bytes → bytes ≤ 18722 → 1 < (plan_of bytes).c →
        (plan_of bytes).k_minus < (plan_of bytes).k_plus }
    ensures greatest { (bytes k : ℕ) → 1 ≤ bytes → bytes ≤ 18722 → 1 < (plan_of bytes).c →
        Contains sizes k → k < (plan_of bytes).k_plus → k ≤ (plan_of bytes).k_minus }
{}

/// The blocks have room for exactly the payload, its check bits, their own check bits, and the
/// fillers.
pub fn blocks_are_filled()
    ensures { (bytes : ℕ) → 1 ≤ bytes → bytes ≤ 18722 →
        (plan_of bytes).c_plus * (plan_of bytes).k_plus + (plan_of bytes).c_minus * (plan_of bytes).k_minus
        ≡ carried (bits_of bytes) + (plan_of bytes).f }
{}

/// The filler bits are in the first block, and are fewer than its bits.
pub fn fillers_leave_some()
    ensures one { (bytes : ℕ) → 1 ≤ bytes → bytes ≤ 18722 →
        (plan_of bytes).c ≡ 1 → (plan_of bytes).f < (plan_of bytes).k_plus }
    ensures several { (bytes : ℕ) → 1 ≤ bytes → bytes ≤ 18722 → 1 < (plan_of bytes).c →
        (plan_of bytes).f < (plan_of bytes).k_minus }
    ensures first { (bytes : ℕ) → 1 ≤ bytes → bytes ≤ 18722 →
        (plan_of bytes).f < share (plan_of bytes) 0 }
{}

/// The shares of all blocks together are S.
pub fn shares_are_the_sequence()
    ensures { (payload : List ℕ) → 1 ≤ length payload → length payload ≤ 18722 →
        before (plan_of (length payload)) (plan_of (length payload)).c
        ≡ length (sequence (plan_of (length payload)) payload) }
{}

/// The plans of 765, of 766 and of 18,722 bytes.
pub fn worked_plans()
    ensures one { plan_of 765 ≡
        record { bytes = 765; c = 1; k_plus = 6144; k_minus = 0; c_plus = 1; c_minus = 0; f = 0 } }
    ensures two { plan_of 766 ≡
        record { bytes = 766; c = 2; k_plus = 3136; k_minus = 3072; c_plus = 1; c_minus = 1; f = 8 } }
    ensures most { plan_of 18722 ≡
        record { bytes = 18722; c = 25; k_plus = 6016; k_minus = 5952; c_plus = 25; c_minus = 0; f = 0 } }
{}
