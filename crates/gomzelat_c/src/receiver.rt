//! The limits of a receiver, and its outcome.
ghost use Rattle.std.specs.Prelude.{◌≡◌};
ghost use Rattle.gomzelat_c.specs.Receiving.{summary};

use model_receiver::TbOutcome;

/// A receiver: N_IR, the soft values of its buffer for a transport block, or 0 for a full buffer; and for
/// each code block the greatest numbers of windows, 1 to 64, and of iterations, 1 to 16.
#[repr(C)]
#[derive(Clone, Copy, Debug)]
pub struct Receiver {
    pub n_ir: u32,
    pub windows: u32,
    pub limit: u32,
}

/// The outcome of a transport block after its transmissions: 1 in `delivered` where it was delivered, else 0;
/// the number of transmissions, up to the one at which all checks held; and the sum over the code blocks
/// of the iterations that each took when it was last decoded.
#[repr(C)]
#[derive(Clone, Copy, Debug)]
pub struct Outcome {
    pub delivered: u32,
    pub transmissions: usize,
    pub iterations: usize,
}

impl Outcome {
    /// Returns an outcome as C sees it.
    pub fn of(outcome: &TbOutcome) -> Outcome
        ensures { result ≡ summary outcome.now }
    {
        match outcome {
            TbOutcome::Delivered {
                transmissions,
                iterations,
                ..
            } => Outcome {
                delivered: 1,
                transmissions: *transmissions,
                iterations: *iterations,
            },
            TbOutcome::Failed {
                transmissions,
                iterations,
            } => Outcome {
                delivered: 0,
                transmissions: *transmissions,
                iterations: *iterations,
            },
        }
    }
}
