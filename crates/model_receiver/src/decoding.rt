//! Laws of a code block's decoding. Each function computes nothing: its contract is the law.
ghost use Rattle.std.specs.Prelude.{◌≡◌, ◌≤◌, ◌↔◌, IsTrue, List};
ghost use Rattle.lte_bits.specs.declared.bit.Bit.{Bit};
ghost use Rattle.lte_bits.specs.declared.block.SoftStreams.{SoftStreams};
ghost use Rattle.model_sender.specs.CheckBits.{IsMultiple};
ghost use Rattle.model_receiver.specs.declared.result.CheckKind.{CheckKind};
ghost use Rattle.model_receiver.specs.declared.result.CodeResult.{CodeResult};
ghost use Rattle.model_receiver.specs.HalfIteration.{Shape};
ghost use Rattle.model_receiver.specs.Decoding.{IsDecoded, check_holds, code_result, generator};

/// The check holds exactly for multiples of its generator.
pub fn checks_tell_multiples()
    ensures { (kind : CheckKind) (bits : List Bit)
        → IsTrue (check_holds kind bits) ↔ IsMultiple (generator kind) bits }
{}

/// The function gives the result of the first iteration whose check holds, or else of the last, and
/// no other result is that.
pub fn decoding_is_the_one()
    ensures is { (soft : SoftStreams) (shape : Shape) → 1 ≤ shape.limit
        → IsDecoded soft shape (code_result soft shape) }
    ensures only { (soft : SoftStreams) (shape : Shape) (r : CodeResult) → 1 ≤ shape.limit
        → IsDecoded soft shape r → r ≡ code_result soft shape }
{}
