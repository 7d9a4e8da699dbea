//! The result of a decoding that has ended.
ghost use Rattle.std.specs.Prelude.{◌≡◌, ◌*◌, ◌-◌, ℕ};
ghost use Rattle.model_receiver.specs.Decoding.{code_result};
ghost use Rattle.window_workers.specs.declared.job.DecodingJob.{DecodingJob};
ghost use Rattle.window_workers.specs.Commons.{IsEndedAt};

use crate::common::{Stage, WindowCommon};
use window_decode::CodeResult;

/// Returns the result in the common value of a closed board: that of the job's code block.
pub fn take_result(common: WindowCommon) -> CodeResult
    requires { (job : DecodingJob) × (h : ℕ) × IsEndedAt job h common }
    ensures result { (job : DecodingJob) (h : ℕ) → IsEndedAt job h common
        → result ≡ code_result job.streams job.shape }
    ensures half { (job : DecodingJob) (h : ℕ) → IsEndedAt job h common
        → h ≡ 2 * result.iterations - 1 }
{
    let WindowCommon { stage } = common;
    match stage {
        Stage::Decided(result) => result,
        Stage::Running(_progress, _room) => unreachable!(),
    }
}
