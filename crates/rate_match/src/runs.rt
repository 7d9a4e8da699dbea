//! Runs of consecutive bits in the circular buffer.
ghost use Rattle.std.specs.Prelude.{◌≤◌};

use model_sender::Spot;

/// A run of `count` bits, at least one, of one column, from place `place` of the buffer on.
#[derive(Clone, Copy)]
pub struct Run {
    pub place: usize,
    pub first: Spot,
    pub count: usize,
    pub ghost stream: { first.stream ≤ 2 },
    pub ghost index: { first.index ≤ 6148 },
    pub ghost few: { count ≤ 18528 },
}

impl Run {
    ghost use Rattle.std.specs.Prelude.{◌≡◌, ◌<◌};
    ghost use Rattle.rate_match.specs.Runs.{bit_down};

    /// Returns bit `i` of the run.
    pub fn spot(self, i: usize) -> Spot
        requires { i < self.count }
        ensures { result ≡ bit_down self.first i }
    {
        let Spot { stream, index } = self.first;
        if stream == 0 {
            return Spot {
                stream,
                index: index + 32 * i,
            };
        }
        let second = usize::from(stream) - 1;
        let index = index + 32 * ((second + i) / 2);
        match (second + i) % 2 {
            0 => Spot {
                stream: 1,
                index: index - second,
            },
            _ => Spot {
                stream: 2,
                index: index + 1 - second,
            },
        }
    }
}
