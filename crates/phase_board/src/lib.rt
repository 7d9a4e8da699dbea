//! A board of pieces, one for each window of a half, which threads share: they draw, run and mark them done,
//! each by one atomic step. The thread that marks the last one gets all pieces, and either turns the board to
//! the next half or stops it. No call waits.
#![tactic(auto)]

mod board;
mod claiming;
mod closed;
mod closing;
mod finishing;
mod new_board;
mod piece;
mod plays;
mod putting_back;
mod seating;
mod seats;
mod taking_out;
mod turning;
mod view;

pub use board::Board;
pub use closed::Closed;
pub use new_board::NewRefused;
pub use piece::Piece;
pub use seats::{Claim, Finish, Idle, Turning, Working};
