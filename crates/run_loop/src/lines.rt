//! Lines of a report.
ghost use Rattle.std.specs.Prelude.{◌≡◌, ◌++◌, IfOk, decimal};
ghost use Rattle.run_loop.specs.Lines.{blocks_line, line_end};

use itoa::Buffer;
use lte_bits::NoMemory;
use std::alloc::Global;

/// Appends a text and after it a number.
pub fn push_number(line: &mut Vec<u8>, text: &[u8], number: u128) -> Result<(), NoMemory>
    ensures { IfOk result (λ _. line.new.items ≡ line.old.items ++ text.now ++ decimal number) }
{
    let mut buffer = Buffer::new();
    line.extend_from_slice(text)?;
    line.extend_from_slice(buffer.format(number).as_bytes())?;
    Ok(())
}

/// Appends a newline.
pub fn end_line(line: &mut Vec<u8>) -> Result<(), NoMemory>
    ensures { IfOk result (λ _. line.new.items ≡ line.old.items ++ line_end) }
{
    line.push(b'\n')?;
    Ok(())
}

/// Returns the line `end blocks N`.
pub fn blocks_line(alloc: Global, count: usize) -> Result<Vec<u8>, NoMemory>
    ensures { IfOk result (λ line. line.items ≡ blocks_line count) }
{
    let mut line = Vec::new(alloc);
    push_number(&mut line, b"end blocks ", count as u128)?;
    end_line(&mut line)?;
    Ok(line)
}
