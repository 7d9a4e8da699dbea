//! The items of the queue of results, what its passes know, and the result of a step.
ghost use Rattle.std.specs.Prelude.{◌≡◌, None, ⊤};
ghost use Rattle.tb_pipeline.specs.Completions.{IsAnswered, opens, received};

use crate::job::Job;
use crossbeam_queue::protocol::{Lesson, Outcome, Protocol, Split};
use crossbeam_queue::{Pass, RuledArrayQueue};
use std::alloc::Global;
use std::collections::LinkedList;
use std::marker::PhantomData;
use std::snapshot::Snapshot;

/// An item of the queue of results.
#[derive(Drop)]
pub enum Completion<J, D> {
    /// The jobs whose results are awaited: this comes first.
    Jobs(Snapshot<Vec<Snapshot<J>>>),
    /// The number of a job, and an answer of that job.
    Done(usize, D),
}

/// The jobs that a pass knows results to be awaited of. No value of it is made.
pub type KnownJobs<J> = Option<LinkedList<J>>;

/// The rule of the queue of answers: each is one of the job with its number.
pub struct AnswersOf<J> {
    job: PhantomData<J>,
}

impl<J: Job> Protocol<Completion<J, J::Done>, KnownJobs<J>> for AnswersOf<J> {
    ghost holds = { IsAnswered J.answers };

    ghost first = { None };
}

/// The queue is opened for the results of the jobs.
pub(crate) struct Opens;

impl<J, D> Outcome<Completion<J, D>, KnownJobs<J>> for Opens {
    ghost then = { opens };
}

/// A result is sent.
pub(crate) struct Sends;

impl<J, D> Outcome<Completion<J, D>, KnownJobs<J>> for Sends {
    ghost then = { λ v x w. w ≡ v };
}

impl<J, D> Lesson<Completion<J, D>, KnownJobs<J>> for Sends {
    ghost fact = { λ v items. ⊤ };
}

/// A completion is received.
pub(crate) struct Receives<J> {
    job: PhantomData<J>,
}

impl<J: Job> Outcome<Completion<J, J::Done>, KnownJobs<J>> for Receives<J> {
    ghost then = { received J.answers };
}

/// A further pass that knows the same jobs.
pub(crate) struct Twin;

impl<J> Split<KnownJobs<J>> for Twin {
    ghost left = { λ v. v };

    ghost right = { λ v. v };
}

/// The queue of answers.
#[derive(Drop)]
pub(crate) struct Answers<J: Job> {
    pub(crate) queue: RuledArrayQueue<
        Completion<J, <J as Job>::Done>,
        KnownJobs<J>,
        AnswersOf<J>,
        Global,
    >,
}

/// A thread's end of the queue of results.
#[derive(Drop)]
pub(crate) struct ResultSender<J: Job> {
    pub(crate) pass: Pass<Completion<J, <J as Job>::Done>, KnownJobs<J>>,
}
