//! The inputs of a code block's half iterations.
ghost use Rattle.std.specs.Prelude.{◌≡◌, ◌≤◌, ℕ};
ghost use Rattle.model_sender.specs.Interleaver.{place};
ghost use Rattle.model_receiver.specs.HalfIteration.{systematic_at};
ghost use Rattle.half_iteration.specs.Views.{AreStreams, AreWhole, by_position};

use crate::lists::{own_order, picked, second_order};
use crate::tail::tail_of;
use lte_bits::{NoMemory, Soft, SoftStreams};
use std::alloc::Global;
use window_decode::{Border, Shape};

/// The soft values of a code block, and the lists in which the halves read them: the place of each
/// position in both orders, and the systematic values in the second one.
#[derive(Drop)]
pub struct Views<'a> {
    pub streams: &'a SoftStreams,
    pub shape: Shape,
    natural: Vec<u16>,
    interleaved: Vec<u16>,
    systematic: Vec<Soft>,
    pub ghost filled: { shape.f ≤ shape.k },
    pub ghost whole: { AreStreams streams.now shape },
    ghost in_order: { natural.items ≡ by_position shape (λ i. i) },
    ghost in_second_order: { interleaved.items ≡ by_position shape (place shape.k) },
    ghost read_in_second_order: { systematic.items
        ≡ by_position shape (systematic_at streams.now shape.k 1) },
}

impl<'a> Views<'a> {
    ghost use Rattle.std.specs.Prelude.{IfOk};
    ghost use Rattle.model_receiver.specs.HalfIteration.{window_width, order, parity_at, tail_border};

    /// Returns the views of a code block. The streams have length K + 4, and the shape's fillers.
    pub fn new(
        alloc: Global,
        streams: &'a SoftStreams,
        shape: &Shape,
    ) -> Result<Views<'a>, NoMemory>
        requires { AreStreams streams.now shape.now }
        ensures streams { IfOk result (λ v. v.streams.now ≡ streams.now) }
        ensures shape { IfOk result (λ v. v.shape ≡ shape.now) }
    {
        let k = shape.k();
        let natural = own_order(alloc, k)?;
        let interleaved = second_order(alloc, k)?;
        let systematic = picked(alloc, streams.d0.as_slice(), interleaved.as_slice())?;
        Ok(Views {
            streams,
            shape: *shape,
            natural,
            interleaved,
            systematic,
        })
    }

    /// Returns the place of each position in half `h`.
    pub fn places(&self, h: usize) -> &[u16]
        ensures { result.now ≡ by_position self.now.shape (order self.now.shape.k h) }
    {
        if h % 2 == 0 {
            self.natural.as_slice()
        } else {
            self.interleaved.as_slice()
        }
    }

    /// Returns the systematic value of each position in half `h`.
    pub fn systematic(&self, h: usize) -> &[Soft]
        ensures { result.now
            ≡ by_position self.now.shape (systematic_at self.now.streams.now self.now.shape.k h) }
    {
        if h % 2 == 0 {
            &self.streams.d0.as_slice()[..self.shape.k()]
        } else {
            self.systematic.as_slice()
        }
    }

    /// Returns the parity value of each position in half `h`.
    pub fn parity(&self, h: usize) -> &[Soft]
        ensures { result.now ≡ by_position self.now.shape (parity_at self.now.streams.now h) }
    {
        if h % 2 == 0 {
            &self.streams.d1.as_slice()[..self.shape.k()]
        } else {
            &self.streams.d2.as_slice()[..self.shape.k()]
        }
    }

    /// Returns the border after the last position in half `h`.
    pub fn tail(&self, h: usize) -> Border
        ensures { result ≡ tail_border self.now.streams.now self.now.shape.k h }
    {
        tail_of(self.streams, &self.shape, h)
    }

    /// Returns the number of positions of a window.
    pub fn width(&self) -> usize
        ensures value { result ≡ window_width self.now.shape }
        ensures whole { AreWhole self.now.shape }
    {
        self.shape.k() / self.shape.windows()
    }

    /// Returns the number of windows of a half.
    pub fn windows(&self) -> usize
        ensures value { result ≡ self.now.shape.windows }
        ensures whole { AreWhole self.now.shape }
    {
        self.shape.windows()
    }
}
