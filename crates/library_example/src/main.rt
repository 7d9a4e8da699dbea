//! The chain called from another crate: a text is sent twice over noise, and received.
#![tactic(auto)]

mod fault;
mod transfer;

use block_receive::TbOutcome;
use fault::Fault;
use std::process::ExitCode;
use transfer::transfer;

/// The payload, 1 to 18,722 bytes.
const TEXT: &[u8] = b"A payload goes from one end to the other.";

fn main(rt: HostRuntime) -> Result<ExitCode, Fault> {
    match transfer(rt.alloc(), TEXT)? {
        TbOutcome::Delivered { bytes, .. } => {
            let same = bytes.as_slice() == TEXT;
            println!(rt;
                "delivered {} bytes, as they were sent: {}",
                bytes.as_slice().len(),
                same
            )?;
            Ok(ExitCode::SUCCESS)
        }
        TbOutcome::Failed { transmissions, .. } => {
            println!(rt; "failed after {} transmissions", transmissions)?;
            Ok(ExitCode::FAILURE)
        }
    }
}
