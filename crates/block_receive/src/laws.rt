//! Laws of tries from soft cells. The function computes nothing: its contract is the law.
ghost use Rattle.std.specs.Prelude.{◌≡◌, List};
ghost use Rattle.model_receiver.specs.SoftCells.{Reception};
ghost use Rattle.model_receiver.specs.Limits.{DecoderLimits};
ghost use Rattle.model_receiver.specs.TransportBlocks.{Held, tried};
ghost use Rattle.soft_buffers.specs.Buffers.{Buffers, Hold};
ghost use Rattle.block_receive.specs.Tries.{tried_from};

/// A try from cells that hold receptions is the try after those receptions.
pub fn cells_of_receptions_are_tried_as_those()
    ensures { (b : Buffers) (limits : DecoderLimits) (xs : List Reception) (held : Held) → Hold b xs →
        tried_from b.plan limits b.cells held ≡ tried b.plan limits xs held }
{}
