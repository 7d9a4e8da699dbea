//! Joining inverts cutting. Each function computes nothing: its contract is the law.
ghost use Rattle.std.specs.Prelude.{◌≡◌, ℕ, ◌*◌, ◌<◌, ◌≤◌, ◌++◌, All, List, length, take};
ghost use Rattle.lte_bits.specs.Packing.{packed, unpacked};
ghost use Rattle.model_sender.specs.CheckBits.{IsMultiple, crc, crc24a};
ghost use Rattle.model_sender.specs.Segmentation.{plan_of};
ghost use Rattle.model_sender.specs.CodeBlocks.{blocks, whole};
ghost use Rattle.segmentation.specs.Shape.{AreBlocksOf};

/// The blocks of a payload have the sizes and the fillers of its plan, and carry its bits and their
/// check bits.
pub fn blocks_carry_the_payload()
    ensures shape { (payload : List ℕ) → 1 ≤ length payload → length payload ≤ 18722 →
        let p = plan_of (length payload) in AreBlocksOf p (blocks p payload) }
    ensures whole { (payload : List ℕ) → 1 ≤ length payload → length payload ≤ 18722 →
        let p = plan_of (length payload) in
        whole p (blocks p payload) ≡ unpacked payload ++ crc crc24a (unpacked payload) }
{}

/// So the blocks that `cut` gives are joined to the payload, and its check bits hold.
pub fn joining_undoes_cutting()
    ensures payload { (payload : List ℕ) → 1 ≤ length payload → length payload ≤ 18722 →
        All (λ byte. byte < 256) payload →
        let p = plan_of (length payload) in
        packed (take (8 * length payload) (whole p (blocks p payload))) ≡ payload }
    ensures holds { (payload : List ℕ) → 1 ≤ length payload → length payload ≤ 18722 →
        let p = plan_of (length payload) in IsMultiple crc24a (whole p (blocks p payload)) }
{}
