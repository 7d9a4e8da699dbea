//! Half iterations of a code block, for any decoder of their windows: their inputs, the borders between
//! windows, and the iterations until the check holds.
#![tactic(auto)]

mod bits;
mod iterations;
mod left;
mod lists;
mod tail;
mod views;

pub use bits::{decide, decided, holds};
pub use iterations::{HalfDecoder, decode_halves, result_in};
pub use left::{BordersLeft, end_of};
pub use lists::part;
pub use views::Views;
