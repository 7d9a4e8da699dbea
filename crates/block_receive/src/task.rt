//! The plan of a transport block, and the limits for decoding it.

use model_receiver::DecoderLimits;
use segmentation::plans::Plan;

/// The plan of a transport block, and the limits for its code blocks.
#[derive(Clone, Copy)]
pub struct Task {
    pub plan: Plan,
    pub limits: DecoderLimits,
}
