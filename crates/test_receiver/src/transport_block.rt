//! Worked transport blocks, received in one and in two transmissions.
ghost use Rattle.std.specs.Prelude.{◌≤◌};

use block_receive::{TbOutcome, receive_alone};
use lte_bits::{NoMemory, Soft};
use rate_match::{Buffer, Match, Sends, fits_plan};
use segmentation::plan;
use segmentation::plans::Plan;
use std::alloc::Global;
use std::process::Abort;
use std::test::Fail;
use test_blocks::{push_equal, sent_of_block, told, zeros_and_one};

/// Receives one transmission of redundancy version 0.
fn receive_once(
    rt: &impl Abort,
    alloc: Global,
    plan: &Plan,
    m: Match,
    softs: &[Soft],
) -> Result<TbOutcome, NoMemory> {
    let sends = Sends::one(m, 0).expect(rt, "a transmission");
    assert!(rt; fits_plan(&m, plan));
    assert!(rt; softs.len() == m.g());
    receive_alone(alloc, plan, &sends, 8, 3, softs)
}

/// Receives two transmissions, of redundancy versions 0 and `rv`.
fn receive_twice(
    rt: &impl Abort,
    alloc: Global,
    plan: &Plan,
    m: Match,
    rv: u8,
    softs: &[Soft],
) -> Result<TbOutcome, NoMemory> {
    let mut sends = Sends::one(m, 0).expect(rt, "a transmission");
    assert!(rt; sends.add(m, rv));
    assert!(rt; fits_plan(&m, plan));
    assert!(rt; softs.len() == 2 * m.g());
    receive_alone(alloc, plan, &sends, 8, 3, softs)
}

#[test]
fn soft_zeros_deliver_zeros(rt: HostRuntime) -> Result<(), Fail> {
    let plan = plan(2).ok().ok_or("it has a plan")?;
    let m = Match::new(2, 1, 132, Buffer::Full)
        .ok()
        .ok_or("it is a matching")?;
    let softs = vec![in rt.alloc(); Soft::ZERO; 132]?;
    let outcome = receive_once(&rt, rt.alloc(), &plan, m, softs.as_slice())?;
    assert_eq!(rt; told(&outcome), (2, 1, 1));
    Ok(())
}

#[test]
fn a_second_transmission_outweighs_the_first(rt: HostRuntime) -> Result<(), Fail> {
    let plan = plan(2).ok().ok_or("it has a plan")?;
    let m = Match::new(2, 1, 132, Buffer::Full)
        .ok()
        .ok_or("it is a matching")?;
    let bits = zeros_and_one(rt.alloc(), 39, &[])?;
    let mut softs = sent_of_block(rt.alloc(), 2, 132, 0, bits)?;
    let outcome = receive_once(&rt, rt.alloc(), &plan, m, softs.as_slice())?;
    assert_eq!(rt; told(&outcome), (0, 1, 3));
    push_equal(&mut softs, 132, 100)?;
    let outcome = receive_twice(&rt, rt.alloc(), &plan, m, 2, softs.as_slice())?;
    assert_eq!(rt; told(&outcome), (2, 2, 1));
    Ok(())
}

// Block 0 passes at once. Its later values would spoil it, were it decoded anew.
#[test]
fn a_block_that_passed_is_kept(rt: HostRuntime) -> Result<(), Fail> {
    let plan = plan(766).ok().ok_or("it has a plan")?;
    let m = Match::new(2, 1, 18840, Buffer::Full)
        .ok()
        .ok_or("it is a matching")?;
    let mut softs = Vec::new(rt.alloc());
    push_equal(&mut softs, 9420, 100)?;
    let bits = zeros_and_one(rt.alloc(), 3135, &[])?;
    let second = sent_of_block(rt.alloc(), 766, 18840, 1, bits)?;
    softs.extend_from_slice(&second)?;
    let outcome = receive_once(&rt, rt.alloc(), &plan, m, softs.as_slice())?;
    assert_eq!(rt; told(&outcome), (0, 1, 4));
    push_equal(&mut softs, 9420, -127)?;
    push_equal(&mut softs, 9420, 100)?;
    let outcome = receive_twice(&rt, rt.alloc(), &plan, m, 0, softs.as_slice())?;
    assert_eq!(rt; told(&outcome), (766, 2, 2));
    Ok(())
}

// Both blocks pass, one with wrong bits: a one and its check bits, 800063. So the transport block's check
// fails.
#[test]
fn none_is_kept_where_all_passed(rt: HostRuntime) -> Result<(), Fail> {
    let plan = plan(766).ok().ok_or("it has a plan")?;
    let m = Match::new(2, 1, 18840, Buffer::Full)
        .ok()
        .ok_or("it is a matching")?;
    let mut softs = Vec::new(rt.alloc());
    push_equal(&mut softs, 9420, 100)?;
    let bits = zeros_and_one(rt.alloc(), 3111, &[0x80, 0x00, 0x63])?;
    let second = sent_of_block(rt.alloc(), 766, 18840, 1, bits)?;
    softs.extend_from_slice(&second)?;
    let outcome = receive_once(&rt, rt.alloc(), &plan, m, softs.as_slice())?;
    assert_eq!(rt; told(&outcome), (0, 1, 2));
    push_equal(&mut softs, 18840, 100)?;
    let outcome = receive_twice(&rt, rt.alloc(), &plan, m, 0, softs.as_slice())?;
    assert_eq!(rt; told(&outcome), (766, 2, 2));
    Ok(())
}
