//! Points of a constellation.

/// A point of two coordinates. Bits are sent as points of odd coordinates from -7 to 7: those of 36.211, 7.1,
/// without the factor that gives them a mean power of 1.
#[derive(Clone, Copy, Debug, PartialEq, Eq, Hash)]
pub struct Point {
    pub i: i32,
    pub q: i32,
}
