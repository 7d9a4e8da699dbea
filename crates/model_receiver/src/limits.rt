//! Limits of the decoding of a code block.

use std::marker::Model;

/// The maximum numbers of windows of a code block, 1 to 64, and of iterations, 1 to 16.
#[derive(Clone, Copy, Debug, PartialEq, Eq)]
pub struct DecoderLimits {
    pub windows: usize,
    pub limit: usize,
}

impl Model for DecoderLimits {
    ghost use Rattle.model_receiver.specs.Limits.{DecoderLimits as Numbers, AreLimits};

    ghost Value = { Numbers };

    ghost view = { λ l. record { windows = l.windows; limit = l.limit } };

    ghost invariant = { λ l. AreLimits (record { windows = l.windows; limit = l.limit }) };

    ghost inverse = { λ l. record { windows = l.windows; limit = l.limit } };
}
