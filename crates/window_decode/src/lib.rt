//! One window of the max-log decoder, and the shape and the result of a code block's decoding.
#![tactic(auto)]

mod border;
mod ext;
mod lanes;
mod metrics;
mod recursion;
mod shape;
mod step;
mod strip;
mod window;
mod work;

pub use border::Border;
pub use ext::Ext;
pub use metrics::metrics_stay_near;
pub use model_receiver::{CheckKind, CodeResult};
pub use shape::Shape;
pub use strip::Strip;
pub use window::run_window;
pub use work::Work;
