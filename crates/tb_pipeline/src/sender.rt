//! A further thread that sends results.
ghost use Rattle.std.specs.Prelude.{◌≡◌, List, Some};
ghost use Rattle.crossbeam_queue.specs.Passes.{IsPassOf, view};

use crate::completion::{Answers, ResultSender, Twin};
use crate::job::Job;

/// Returns the sender, and another that knows the same jobs.
pub(crate) fn another_sender<J: Job>(
    answers: &Answers<J>,
    sender: ResultSender<J>,
) -> (ResultSender<J>, ResultSender<J>)
    requires queue { IsPassOf answers.now.queue sender.pass }
    requires jobs { (jobs : List J) × (view sender.pass ≡ Some jobs) }
    ensures queue { IsPassOf answers.now.queue result.0.pass × IsPassOf answers.now.queue result.1.pass }
    ensures jobs { (view result.0.pass ≡ view sender.pass) × (view result.1.pass ≡ view sender.pass) }
{
    let ResultSender { mut pass } = sender;
    let other = answers.queue.another::<Twin>(&mut pass);
    (ResultSender { pass }, ResultSender { pass: other })
}
