//! Laws of soft cells. The functions compute nothing: their contracts are the laws.
ghost use Rattle.std.specs.Prelude.{◌≡◌, ℕ, [], ◌∷◌, ◌++◌, List, pos, fold};
ghost use Rattle.model_sender.specs.Segmentation.{Plan};
ghost use Rattle.model_sender.specs.declared.spot.Spot.{Spot};
ghost use Rattle.model_receiver.specs.SoftCells.{Reception, added, soft_cell, values_of};

/// Before the first reception each cell is 0.
pub fn cells_begin_at_zero()
    ensures { (plan : Plan) (r : ℕ) (s : Spot) → soft_cell plan [] r s ≡ pos 0 }
{}

/// One more reception adds its own values to the cells so far, in order.
pub fn values_are_added_as_they_come()
    ensures { (plan : Plan) (xs : List Reception) (x : Reception) (r : ℕ) (s : Spot) →
        soft_cell plan (xs ++ x ∷ []) r s ≡ fold added (soft_cell plan xs r s) (values_of plan x r s) }
{}
