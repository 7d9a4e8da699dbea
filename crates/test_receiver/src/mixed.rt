//! A window of mixed values from a known to an unknown border, and what an independent program leaves of it.

pub const SYSTEMATIC: [i8; 8] = [-122, -74, 48, -11, 4, 93, 1, -17];

pub const PARITY: [i8; 8] = [-37, 45, -22, 17, -93, -97, 5, -42];

pub const OLD_CELLS: [i16; 8] = [-211, -43, 327, -124, -373, -420, -265, 92];

pub const NEW_CELLS: [i16; 8] = [-28, -42, 81, -126, -57, -37, 35, -31];

/// Whether the decided bits are 1.
pub const ONES: [bool; 8] = [true, true, false, true, true, true, true, false];

/// The numbers of the borders that the window leaves.
pub const FORWARD: [i16; 8] = [0, 119, 162, 336, 33, 11, 45, 303];

pub const BACKWARD: [i16; 8] = [0, -1, -110, -49, -115, -70, -96, -150];
