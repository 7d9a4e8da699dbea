//! The report's lines.
ghost use Rattle.std.specs.Prelude.{◌≡◌, ◌≤◌, ◌++◌, IfOk};
ghost use Rattle.command_decode.specs.Decoding.{block_line, last_line, with_counts};

use lte_bits::NoMemory;
use model_receiver::TbOutcome;
use run_loop::{end_line, push_number};
use std::alloc::Global;

/// Appends ` transmissions T iterations I`.
fn push_counts(line: &mut Vec<u8>, transmissions: usize, iterations: usize) -> Result<(), NoMemory>
    ensures { IfOk result (λ _. line.new.items ≡ with_counts line.old.items transmissions iterations) }
{
    push_number(line, b" transmissions ", transmissions as u128)?;
    push_number(line, b" iterations ", iterations as u128)?;
    end_line(line)
}

/// Returns the report line of a block.
pub fn block_line(alloc: Global, number: usize, outcome: &TbOutcome) -> Result<Vec<u8>, NoMemory>
    ensures { IfOk result (λ line. line.items ≡ block_line number outcome.now) }
{
    let mut line = Vec::new(alloc);
    push_number(&mut line, b"block ", number as u128)?;
    match outcome {
        TbOutcome::Delivered {
            bytes,
            transmissions,
            iterations,
        } => {
            push_number(
                &mut line,
                b" delivered bytes ",
                bytes.as_slice().len() as u128,
            )?;
            push_counts(&mut line, *transmissions, *iterations)?;
        }
        TbOutcome::Failed {
            transmissions,
            iterations,
        } => {
            line.extend_from_slice(b" failed")?;
            push_counts(&mut line, *transmissions, *iterations)?;
        }
    }
    Ok(line)
}

/// Returns the last line, after `blocks` blocks of which `failed` failed.
pub fn last_line(alloc: Global, blocks: usize, failed: usize) -> Result<Vec<u8>, NoMemory>
    requires { failed ≤ blocks }
    ensures { IfOk result (λ line. line.items ≡ last_line blocks failed) }
{
    let mut line = Vec::new(alloc);
    push_number(&mut line, b"end blocks ", blocks as u128)?;
    push_number(&mut line, b" delivered ", (blocks - failed) as u128)?;
    push_number(&mut line, b" failed ", failed as u128)?;
    end_line(&mut line)?;
    Ok(line)
}
