//! A command over a stream.
ghost use Rattle.std.specs.Prelude.{◌≡◌, ◌≤◌, ◌<◌, ℕ, true, IfOk};
ghost use Rattle.std.specs.Option.{option_map};
ghost use Rattle.coded_stream.specs.Header.{kind_code};
ghost use Rattle.coded_stream.specs.Blocks.{IsBlock};
ghost use Rattle.coded_stream.specs.Opening.{is_wanted};
ghost use Rattle.coded_stream.specs.Shown.{header_of};
ghost use Rattle.stream_loop.specs.Handling.{Handling};

use coded_stream::{Header, Want};
use lte_bits::NoMemory;
use std::alloc::Global;

/// The result of a block.
#[derive(Debug, Drop)]
pub struct Handled {
    /// Its bytes for `out`.
    pub text: Vec<u8>,
    /// Its bytes for the report.
    pub line: Vec<u8>,
    /// Whether it failed.
    pub failed: bool,
}

/// A command over a stream that handles each block by itself.
pub trait Handler: Drop {
    ghost use Rattle.stream_loop.specs.Rounds.{block_of, handled_of};

    // Its meaning for a stream.
    ghost handling: { Self → Handling };

    // Its precondition for a block.
    ghost able: { Self → Type 0 } = { λ _. Unit {0} };

    /// Returns which streams it takes.
    fn want(&self) -> Want
        ensures { result ≡ (handling self.now).want };

    /// Returns the header of the stream that it writes, for that of the stream that it reads; none where it
    /// writes no stream.
    fn header(&self, header: &Header) -> Option<Header>
        ensures { option_map header_of result ≡ (handling self.now).header (header_of header.now) };

    /// Returns the result of a block: its number, from 0, the bytes of its payload, and the bytes of its
    /// transmissions, one transmission after the other.
    fn block(
        &self,
        alloc: Global,
        header: &Header,
        number: usize,
        payload: usize,
        bytes: &[u8],
    ) -> Result<Handled, NoMemory>
        requires able { able self.now }
        requires wanted { is_wanted (handling self.now).want (kind_code header.now.kind) ≡ true }
        requires few { number < 4096 }
        requires accepted { IsBlock (header_of header.now) (block_of payload bytes.now) }
        ensures { IfOk result (λ x. handled_of x ≡ (handling self.now).block (header_of header.now)
            number (block_of payload bytes.now)) };

    /// Returns the report's last line, after at most 4,096 blocks, of which `failed` failed.
    fn last(&self, alloc: Global, blocks: usize, failed: usize) -> Result<Vec<u8>, NoMemory>
        requires few { blocks ≤ 4096 }
        requires failed { failed ≤ blocks }
        ensures { IfOk result (λ line. line.items ≡ (handling self.now).last blocks failed) };
}
