//! Laws of cells in one list. The functions compute nothing: their contracts are the laws.
ghost use Rattle.std.specs.Prelude.{◌≡◌, ℤ, ◌++◌, List, flat_map, length};
ghost use Rattle.model_sender.specs.Segmentation.{Plan};
ghost use Rattle.model_receiver.specs.SoftCells.{Reception};
ghost use Rattle.soft_buffers.specs.Buffers.{AreLong, HaveTaken};
ghost use Rattle.soft_buffers.specs.Flat.{by_block, cell_count, combined};

/// The cells of all blocks that have taken a reception are the combined ones. The call does nothing.
pub fn combined_is_the_one()
    ensures is { (plan : Plan) (x : Reception) (cells tail : List ℤ) →
        HaveTaken plan x (by_block plan cells) (by_block plan (combined plan x cells ++ tail)) }
    ensures long { (plan : Plan) (x : Reception) (cells : List ℤ) →
        length (combined plan x cells) ≡ cell_count plan }
    ensures only { (plan : Plan) (x : Reception) (cells : List ℤ) (new : List (List ℤ)) →
        length new ≡ plan.c → AreLong plan new → HaveTaken plan x (by_block plan cells) new →
        flat_map (λ block. block) new ≡ combined plan x cells }
{}
