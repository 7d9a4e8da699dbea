//! One block of a trial.
ghost use Rattle.std.specs.Prelude.{◌≡◌, ◌≤◌, ◌<◌, ◌+◌, ◌++◌, IfOk, length};
ghost use Rattle.model_sender.specs.Segmentation.{plan_of};
ghost use Rattle.model_sender.specs.CircularBuffer.{Fits};
ghost use Rattle.block_receive.specs.Receptions.{value_count};
ghost use Rattle.command_trial.specs.Trials.{trial_of, block_outcome, payload, received, softs};

use crate::trial::Trial;
use block_receive::Task;
use lte_bits::{List, NoMemory, Soft};
use model_receiver::TbOutcome;
use rate_match::Coded;
use rate_match::sends::Sending;
use segmentation::plan;
use soft_channel::payload;
use std::alloc::Global;

impl Trial {
    /// Returns the payload of a block.
    pub fn payload(&self, alloc: Global, block: usize) -> Result<List<u8>, NoMemory>
        requires { block < 4096 }
        ensures value { IfOk result (λ bytes. bytes ≡ payload (trial_of self.now) block) }
        ensures long { IfOk result (λ bytes. length bytes ≡ self.now.tb) }
    {
        let channel = &self.channel;
        payload(alloc, self.tb, channel.seed, block as u32)
    }

    /// Appends the received soft values of a transmission of a block, both counted from 0.
    #[tactic(auto, using(soft_channel::proofs::Lengths::length_noisy))]
    fn push_received(
        &self,
        alloc: Global,
        values: &mut Vec<Soft>,
        sending: &Sending,
        block: usize,
        number: usize,
        sent: &Coded,
    ) -> Result<(), NoMemory>
        requires block { block < 4096 }
        requires number { number < 8 }
        requires sent { sent.now ≡ payload (trial_of self.now) block }
        requires long { length sent.now ≡ self.now.tb }
        requires fits { Fits sending.now.m (plan_of self.now.tb) }
        requires version { sending.now.rv ≤ 3 }
        ensures values { IfOk result (λ _. values.new.items ≡ values.old.items
            ++ received (trial_of self.now) block number sending.now) }
        ensures count { IfOk result (λ _. length values.new.items
            ≡ length values.old.items + sending.now.m.g) }
    {
        let bits = sent.codeword(alloc, &sending.m, sending.rv)?;
        let block = block as u32;
        let number = number as u8;
        let softs = self.channel.noisy(alloc, bits.as_slice(), block, number)?;
        values.extend_from_slice(softs.as_slice())?;
        Ok(())
    }

    /// Returns the received soft values of all transmissions of a block, one transmission after the other.
    fn softs(&self, alloc: Global, block: usize, sent: &[u8]) -> Result<Vec<Soft>, NoMemory>
        requires block { block < 4096 }
        requires sent { sent.now ≡ payload (trial_of self.now) block }
        requires long { length sent.now ≡ self.now.tb }
        ensures values { IfOk result (λ values. values.items ≡ softs (trial_of self.now) block) }
        ensures count { IfOk result (λ values. length values.items ≡ value_count self.now.sends) }
    {
        let coded = Coded::new(alloc, sent)?;
        let mut values = Vec::new(alloc);
        for number in 0..self.sends.len() {
            let (m, rv) = self.sends.at(number);
            let sending = Sending { m, rv };
            self.push_received(alloc, &mut values, &sending, block, number, &coded)?;
        }
        Ok(values)
    }

    /// Returns the outcome of receiving a block whose payload is `sent`.
    pub fn outcome(&self, alloc: Global, block: usize, sent: &[u8]) -> Result<TbOutcome, NoMemory>
        requires block { block < 4096 }
        requires sent { sent.now ≡ payload (trial_of self.now) block }
        requires long { length sent.now ≡ self.now.tb }
        ensures { IfOk result (λ o. o ≡ block_outcome (trial_of self.now) block) }
    {
        let plan = plan(self.tb).unwrap();
        let limits = self.limits;
        let task = Task { plan, limits };
        let softs = self.softs(alloc, block, sent)?;
        task.receive_alone(alloc, &self.sends, softs.as_slice())
    }
}
