//! Counts over the blocks of a trial.
ghost use Rattle.std.specs.Prelude.{◌≡◌, ◌+◌, ◌<◌};
ghost use Rattle.command_trial.specs.Trials.{added, counts_of, none_counted, AreFew};

use model_receiver::TbOutcome;

/// How many blocks were delivered, how many of them with the bytes that were sent, how many failed, and the
/// sums of their transmissions and iterations.
#[derive(Clone, Copy, Debug)]
pub struct Counts {
    pub delivered: usize,
    pub matched: usize,
    pub failed: usize,
    pub transmissions: u128,
    pub iterations: u128,
}

impl Counts {
    /// Returns the counts of no block.
    pub fn new() -> Self
        ensures { result ≡ none_counted }
    {
        Counts {
            delivered: 0,
            matched: 0,
            failed: 0,
            transmissions: 0,
            iterations: 0,
        }
    }

    /// Returns the counts of one block whose payload was `sent`.
    fn of(sent: &[u8], outcome: &TbOutcome) -> Self
        ensures value { result ≡ counts_of sent.now outcome.now }
        ensures few { AreFew 1 result }
    {
        match outcome {
            TbOutcome::Delivered {
                bytes,
                transmissions,
                iterations,
            } => Counts {
                delivered: 1,
                matched: usize::from(bytes.as_slice() == sent),
                failed: 0,
                transmissions: *transmissions as u128,
                iterations: *iterations as u128,
            },
            TbOutcome::Failed {
                transmissions,
                iterations,
            } => Counts {
                delivered: 0,
                matched: 0,
                failed: 1,
                transmissions: *transmissions as u128,
                iterations: *iterations as u128,
            },
        }
    }

    /// Adds the counts of one block more, after fewer than 4,096.
    pub fn with(self, blocks: usize, sent: &[u8], outcome: &TbOutcome) -> Self
        requires few { blocks < 4096 }
        requires counts { AreFew blocks self }
        ensures value { result ≡ added self (counts_of sent.now outcome.now) }
        ensures few { AreFew (blocks + 1) result }
    {
        let one = Counts::of(sent, outcome);
        Counts {
            delivered: self.delivered + one.delivered,
            matched: self.matched + one.matched,
            failed: self.failed + one.failed,
            transmissions: self.transmissions + one.transmissions,
            iterations: self.iterations + one.iterations,
        }
    }
}
