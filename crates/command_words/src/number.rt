//! Numbers as arguments spell them.
ghost use Rattle.std.specs.Prelude.{◌≡◌};
ghost use Rattle.std.specs.Char.{is_ascii_digit};
ghost use Rattle.std.specs.List.{list_all};
ghost use Rattle.command_words.specs.Number.{is_spelt, number_of};

fn is_digits(text: &[u8]) -> bool
    ensures { result ≡ list_all is_ascii_digit text.now }
{
    text.iter().all(|byte| byte.is_ascii_digit())
}

fn is_spelt(text: &[u8]) -> bool
    ensures { result ≡ is_spelt text.now }
{
    (1..=20).contains(&text.len()) && is_digits(text) && (text.len() == 1 || text[0] != b'0')
}

/// Returns the number that a text spells: 1 to 20 digits, the first of them 0 only if it is the only one.
/// Twenty digits can exceed 2^64; such a number is out of range rather than misspelt.
pub fn spelt(text: &str) -> Option<u128>
    ensures { result ≡ number_of text.now }
{
    if !is_spelt(text.as_bytes()) {
        return None;
    }
    text.parse::<u128>().ok()
}
