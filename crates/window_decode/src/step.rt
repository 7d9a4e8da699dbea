//! The branch metrics of one position.
ghost use Rattle.lte_bits.specs.Softs.{IsWithin};

/// The branch metrics of a position: `input` for an input bit 0, by systematic value and a-priori cell, and
/// `parity` for a parity bit 0.
#[derive(Clone, Copy)]
pub struct Step {
    pub input: i16,
    pub parity: i16,
    pub ghost input_bound: { IsWithin 638 input },
    pub ghost parity_bound: { IsWithin 127 parity },
}
