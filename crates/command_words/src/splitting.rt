//! Splitting of texts.
ghost use Rattle.std.specs.Prelude.{◌<◌};
ghost use Rattle.command_words.specs.Splitting.{IsSplit};

/// Returns what is before the first mark, an ASCII character, and what is after it.
pub fn split_first(text: &str, mark: char) -> Option<(&str, &str)>
    requires { mark < 128 }
    ensures { IsSplit mark text.now result }
{
    text.split_once(mark)
}
