//! The program's arguments.
ghost use Rattle.std.specs.Prelude.{◌≡◌, IfOk, map, drop, string_bytes};
ghost use Rattle.std.specs.Vec.Iter.{into_iter_items};
ghost use Rattle.command_words.specs.Texts.{texts_of};

use std::alloc::{AllocError, Global};
use std::env::Args;

/// Returns the arguments after the program's name, in their order.
pub fn words_after_name(alloc: Global, arguments: Args) -> Result<Vec<String>, AllocError>
    ensures { IfOk result (λ words. words.items ≡ drop 1 (into_iter_items arguments)) }
{
    arguments.skip(1).collect(alloc)
}

/// Returns the arguments, borrowed for a run.
pub fn lent(alloc: Global, words: &[String]) -> Result<Vec<&str>, AllocError>
    ensures { IfOk result (λ lent. texts_of lent.items ≡ map string_bytes words.now) }
{
    words.iter().map(|word| word.as_str()).collect(alloc)
}
