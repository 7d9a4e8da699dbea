//! What is received of a transport block.
use model_receiver::TbOutcome;

/// Returns how many bytes an outcome delivers, all 0, and its transmissions and iterations: no byte where it
/// failed.
pub fn told(outcome: &TbOutcome) -> (usize, usize, usize) {
    match outcome {
        TbOutcome::Delivered {
            bytes,
            transmissions,
            iterations,
        } if bytes.as_slice().iter().all(|byte| *byte == 0) => {
            (bytes.as_slice().len(), *transmissions, *iterations)
        }
        TbOutcome::Failed {
            transmissions,
            iterations,
        } => (0, *transmissions, *iterations),
        _ => (0, 0, 0),
    }
}
