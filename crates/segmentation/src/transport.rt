//! One code block of a transport block (36.212 5.1.2).
ghost use Rattle.std.specs.Prelude.{◌≡◌, ◌≤◌, ◌+◌, ◌-◌, ◌<◌, IfOk, length, take, drop};
ghost use Rattle.model_sender.specs.Segmentation.{plan_of};
ghost use Rattle.model_sender.specs.CodeBlocks.{before, block, checked, sequence, share};
ghost use Rattle.segmentation.specs.Cutting.{bytes_before};
ghost use Rattle.segmentation.specs.Plans.{IsPlan};

use crate::planning::{check_length, fill, size};
use crate::plans::Plan;
use block_crc::{crc24a_of_bytes, crc24b};
use lte_bits::{Bit, Block, List, NoMemory, push_unpacked};
use std::alloc::Global;
use std::marker::Model;

/// A payload of 1 to 18,722 bytes, to be cut into code blocks. Contracts see the payload.
#[derive(Debug, Drop)]
pub struct TransportBlock<'a> {
    payload: &'a [u8],
    plan: Plan,
    check_bits: [Bit; 24],
}

impl<'a> Model for TransportBlock<'a> {
    ghost use Rattle.std.specs.Prelude.{ℕ, List};

    ghost Value = { List ℕ };

    ghost use Rattle.segmentation.specs.Cutting.{IsToCut};

    ghost view = { λ t. t.payload.now };

    ghost invariant = { λ t. IsToCut t.payload.now t.plan t.check_bits };
}

/// Returns how many bits of S the blocks before block `r` take.
fn before(plan: &Plan, r: usize) -> usize
    requires { r ≤ plan.now.c }
    ensures { result ≡ before plan.now r }
{
    let own = check_length(plan.c);
    if r <= plan.c_minus {
        r * (plan.k_minus - own)
    } else {
        plan.c_minus * (plan.k_minus - own) + (r - plan.c_minus) * (plan.k_plus - own)
    }
}

/// Returns how many bytes the blocks before block `r` take after the fillers.
fn bytes_before(plan: &Plan, r: usize) -> usize
    requires { r ≤ plan.now.c }
    ensures { result ≡ bytes_before plan.now r }
{
    before(plan, r).saturating_sub(plan.f) / 8
}

/// Returns a share of S, followed by its CRC24B if there are several blocks.
fn checked(c: usize, mut share: Vec<Bit>) -> Result<List<Bit>, NoMemory>
    requires { length share.items ≤ 6144 }
    ensures { IfOk result (λ bits. bits ≡ checked c share.items) }
{
    if c > 1 {
        let check_bits = crc24b(share.as_slice());
        share.extend_from_slice(&check_bits)?;
    }
    Ok(List::from_vec(share))
}

impl<'a> TransportBlock<'a> {
    /// Computes the check bits of a payload of the plan's length (36.212 5.1.1).
    pub fn new(payload: &'a [u8], plan: Plan) -> TransportBlock<'a>
        requires { plan.bytes ≡ length payload.now }
        ensures { result ≡ payload.now }
    {
        TransportBlock {
            payload,
            plan,
            check_bits: crc24a_of_bytes(payload),
        }
    }

    /// Returns the plan of the payload.
    pub fn plan(&self) -> Plan
        ensures value { result ≡ plan_of (length self.now) }
        ensures lawful { IsPlan result }
    {
        self.plan
    }

    /// Returns the bytes of the payload that block `r` carries.
    fn carried(&self, r: usize) -> &[u8]
        requires { r < (plan_of (length self.now)).c }
        ensures { let plan = plan_of (length self.now) in
            result.now ≡ take (bytes_before plan (r + 1) - bytes_before plan r)
            (drop (bytes_before plan r) self.now) }
    {
        let plan = self.plan();
        let from = bytes_before(&plan, r);
        let own = bytes_before(&plan, r + 1) - from;
        let rest = &self.payload[from..];
        &rest[..own.min(rest.len())]
    }

    /// Returns block `r`'s share of S: the fillers, the bits of its bytes, and at the end of the last block
    /// the check bits of the payload.
    fn share(&self, alloc: Global, r: usize) -> Result<Vec<Bit>, NoMemory>
        requires { r < (plan_of (length self.now)).c }
        ensures { IfOk result (λ bits. let plan = plan_of (length self.now) in
            bits.items ≡ take (share plan r) (drop (before plan r) (sequence plan self.now))) }
    {
        let plan = self.plan();
        let mut bits = Vec::with_capacity(alloc, size(&plan, r))?;
        bits.resize(fill(&plan, r), Bit::Zero)?;
        push_unpacked(&mut bits, self.carried(r))?;
        if r + 1 == plan.c {
            bits.extend_from_slice(&self.check_bits)?;
        }
        Ok(bits)
    }

    /// Returns code block `r`, which is below C (36.212 5.1.2), of its size: the first F bits of block 0 are
    /// filler bits, and if C is above 1 it ends with 24 check bits of its own. Allocates its bits.
    pub fn code_block(&self, alloc: Global, r: usize) -> Result<Block, NoMemory>
        requires { r < (plan_of (length self.now)).c }
        ensures { IfOk result (λ b. b ≡ block (plan_of (length self.now)) self.now r) }
    {
        let plan = self.plan();
        Ok(Block {
            fill: fill(&plan, r),
            bits: checked(plan.c, self.share(alloc, r)?)?,
        })
    }
}
