//! Jobs done by several threads: what a relay hands out, the order of the answers, and two jobs at once.
ghost use Rattle.std.specs.Prelude.{◌≡◌, ◌*◌, false};
ghost use Rattle.tb_pipeline.specs.Hands.{IsHandOf, hand_view};

use crate::counting_start::CountingStart;
use crate::meeting_gate::MeetingGate;
use std::process::Abort;
use std::sync::Wait;
use std::test::Fail;
use tb_pipeline::{Hand, Job, Next, NoStart, Relay, through};

/// A job whose answer is the square of its number.
#[derive(Clone, Copy)]
struct Square {
    number: u32,
}

impl Job for Square {
    type Done = u64;

    ghost answers = { λ job done. done ≡ job.number * job.number };

    fn run(&self) -> u64 {
        u64::from(self.number) * u64::from(self.number)
    }
}

fn takes<R: Wait + Abort>(rt: &R, relay: &Relay, hand: Hand, number: usize) -> Hand
    requires { IsHandOf relay.now hand × ((hand_view hand).ended ≡ false) }
    ensures { IsHandOf relay.now result × ((hand_view result).ended ≡ false) }
{
    match relay.take(rt, hand) {
        Next::Job(hand, taken) => {
            assert_eq!(rt; taken, number);
            hand
        }
        Next::Empty(_) => panic!(rt; "an end mark in place of {number}"),
    }
}

fn takes_an_end_mark<R: Wait + Abort>(rt: &R, relay: &Relay, hand: Hand)
    requires { IsHandOf relay.now hand × ((hand_view hand).ended ≡ false) }
{
    match relay.take(rt, hand) {
        Next::Job(_, taken) => panic!(rt; "{taken} in place of an end mark"),
        Next::Empty(_) => {}
    }
}

#[test]
fn two_hands_take_three_numbers(rt: HostRuntime) -> Result<(), Fail> {
    let (relay, mut hands) = Relay::new(&rt, rt.alloc(), 3, 2)?;
    let second = hands.pop().ok_or("there are two hands")?;
    let first = hands.pop().ok_or("there are two hands")?;
    let first = takes(&rt, &relay, first, 0);
    let second = takes(&rt, &relay, second, 1);
    let first = takes(&rt, &relay, first, 2);
    takes_an_end_mark(&rt, &relay, first);
    takes_an_end_mark(&rt, &relay, second);
    Ok(())
}

#[test]
fn answers_stand_in_the_order_of_the_jobs(rt: HostRuntime) -> Result<(), Fail> {
    let jobs = [7, 0, 65_536, 3, 12].map(|number| Square { number });
    for pipes in [1usize, 2, 8] {
        assert!(rt; 1 <= pipes && pipes <= 8);
        let answers = through(&rt, rt.alloc(), &jobs, pipes, &NoStart)?;
        assert_eq!(rt;
            answers.as_slice(),
            [49u64, 0, 4_294_967_296, 9, 144].as_slice()
        );
    }
    Ok(())
}

#[test]
fn two_blocks_at_once(rt: HostRuntime) -> Result<(), Fail> {
    let gate = MeetingGate::new(2);
    let jobs = [7, 3].map(|number| Square { number });
    let answers = through(&rt, rt.alloc(), &jobs, 2, &gate)?;
    assert_eq!(rt; answers.as_slice(), [49u64, 9].as_slice());
    assert!(rt; gate.met());
    Ok(())
}

#[test]
fn two_workers_begin_each_job_once_and_neither_works_alone(rt: HostRuntime) -> Result<(), Fail> {
    let start = CountingStart::new(rt.alloc(), 8)?;
    let jobs = [7, 3, 1, 0, 2, 6, 5, 4].map(|number| Square { number });
    let answers = through(&rt, rt.alloc(), &jobs, 2, &start)?;
    assert_eq!(rt;
        answers.as_slice(),
        [49u64, 9, 1, 0, 4, 36, 25, 16].as_slice()
    );
    assert!(rt; start.saw_each_once());
    assert!(rt; start.went_on());
    Ok(())
}

#[test]
fn eight_workers_do_eight_jobs_at_once(rt: HostRuntime) -> Result<(), Fail> {
    let gate = MeetingGate::new(8);
    let jobs = [7, 3, 1, 0, 2, 6, 5, 4].map(|number| Square { number });
    let answers = through(&rt, rt.alloc(), &jobs, 8, &gate)?;
    assert_eq!(rt;
        answers.as_slice(),
        [49u64, 9, 1, 0, 4, 36, 25, 16].as_slice()
    );
    assert!(rt; gate.met());
    Ok(())
}
