//! The part of its circular buffer that a code block sends (36.212 5.1.4.1.2).
ghost use Rattle.std.specs.Prelude.{◌≡◌, ◌≢◌, ◌≤◌, ◌<◌, IfOk, OnOk};
ghost use Rattle.std.specs.Result.{result_err};
ghost use Rattle.model_sender.specs.CircularBuffer.{Fits};
ghost use Rattle.model_sender.specs.Segmentation.{plan_of};
ghost use Rattle.gomzelat_c.specs.Refusals.{told};
ghost use Rattle.gomzelat_c.specs.Stages.{piece_in, piece_tests};
ghost use Rattle.gomzelat_c.specs.Tests.{first_failed};
ghost use Rattle.gomzelat_c.specs.Transmissions.{limit_in, transmission_of};

use crate::refusal::{Refusal, accept};
use crate::transmission::{Transmission, buffer_of};
use rate_match::sends::Sending;
use rate_match::{fits_buffer, piece_len, ring_of, start};
use segmentation::plan;
use segmentation::plans::Plan;

/// The part of its circular buffer that a code block sends: K; the number of its fillers; K_w, the places of
/// the buffer; N_cb, those that it sends from; k0, where the redundancy version starts; and E, the bits that
/// are sent.
#[repr(C)]
#[derive(Clone, Copy, Debug)]
pub struct Piece {
    pub k: usize,
    pub fill: usize,
    pub buffer: usize,
    pub places: usize,
    pub start: usize,
    pub bits: usize,
}

/// A transmission of a payload, with everything tested.
#[derive(Clone, Copy)]
pub struct Asked {
    pub plan: Plan,
    pub sending: Sending,
}

/// Returns a transmission of a payload of `bytes` bytes that has a block `r`, or the refusal.
pub fn accepted(
    bytes: usize,
    r: usize,
    transmission: &Transmission,
    n_ir: u32,
) -> Result<Asked, Refusal>
    ensures refused { result_err result ≡ first_failed (piece_tests bytes r transmission.now n_ir) }
    ensures plan { IfOk result (λ asked. asked.plan ≡ plan_of bytes) }
    ensures sending { IfOk result (λ asked. asked.sending ≡ transmission_of (limit_in n_ir) transmission.now) }
    ensures block { IfOk result (λ asked. r < asked.plan.c) }
    ensures fits { IfOk result (λ asked. Fits asked.sending.m asked.plan) }
    ensures version { IfOk result (λ asked. asked.sending.rv ≤ 3) }
    ensures some { OnOk result (1 ≤ bytes) }
    ensures few { OnOk result (bytes ≤ 18722) }
{
    let plan = plan(bytes)?;
    let buffer = buffer_of(n_ir);
    let sending = transmission.sending(buffer)?;
    accept(fits_buffer(buffer, &plan), Refusal::BadBuffer)?;
    accept(r < plan.c, Refusal::BadBlock)?;
    Ok(Asked { plan, sending })
}

/// Returns the part of its circular buffer that block `r` sends.
fn piece_in(plan: &Plan, r: usize, sending: &Sending) -> Piece
    requires block { r < plan.now.c }
    requires fits { Fits sending.now.m plan.now }
    requires version { sending.now.rv ≤ 3 }
    ensures { result ≡ piece_in plan.now r sending.now }
{
    let ring = ring_of(&sending.m, plan, r);
    Piece {
        k: ring.k,
        fill: ring.fill,
        buffer: 96 * ring.rows,
        places: ring.size,
        start: start(ring.k, ring.size, sending.rv),
        bits: piece_len(&sending.m, plan, r),
    }
}

/// Writes to `piece` the part of its circular buffer that code block `r` of a payload of `bytes` bytes sends
/// in a transmission. Returns 0, or a `Refusal`'s number with nothing changed.
#[unsafe(no_mangle)]
pub extern "C" fn gomzelat_piece(
    bytes: usize,
    r: usize,
    transmission: Transmission,
    n_ir: u32,
    piece: &mut Piece,
) -> u32
    ensures answer { result ≡ told (first_failed (piece_tests bytes r transmission n_ir)) }
    ensures piece { result ≡ 0 → piece.new
        ≡ piece_in (plan_of bytes) r (transmission_of (limit_in n_ir) transmission) }
    ensures kept { result ≢ 0 → piece.new ≡ piece.old }
{
    match accepted(bytes, r, &transmission, n_ir) {
        Ok(asked) => {
            *piece = piece_in(&asked.plan, r, &asked.sending);
            0
        }
        Err(refusal) => refusal.number(),
    }
}
