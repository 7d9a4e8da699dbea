//! The names of the commands.
ghost use Rattle.std.specs.Prelude.{◌≡◌};
ghost use Rattle.command_words.specs.Words.{command_named};

/// The commands that there are.
#[derive(Clone, Copy, Debug)]
pub enum CommandName {
    Codeword,
    Encode,
    Decode,
    Batch,
    Channel,
    Upgrade,
    Trial,
    Scramble,
    Points,
}

/// Returns the command that an argument names.
pub fn command_named(word: &str) -> Option<CommandName>
    ensures { result ≡ command_named word.now }
{
    match word {
        "codeword" => Some(CommandName::Codeword),
        "encode" => Some(CommandName::Encode),
        "decode" => Some(CommandName::Decode),
        "batch" => Some(CommandName::Batch),
        "channel" => Some(CommandName::Channel),
        "upgrade" => Some(CommandName::Upgrade),
        "trial" => Some(CommandName::Trial),
        "scramble" => Some(CommandName::Scramble),
        "points" => Some(CommandName::Points),
        _ => None,
    }
}
