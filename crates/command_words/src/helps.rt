//! The words that ask a program to tell of itself.

ghost use Rattle.std.specs.Prelude.{◌≡◌, ◌↔◌, Some, map};
ghost use Rattle.std.specs.String.{string_bytes};
ghost use Rattle.command_words.specs.Helps.{AskUsage, AskVersion};

/// What a program tells of itself.
#[derive(Clone, Copy, PartialEq, Eq)]
pub enum Help {
    Usage,
    Version,
}

/// The help that these words ask for: `--help` or `--version`, alone.
pub fn help_of(words: &[String]) -> Option<Help>
    ensures usage { (result ≡ Some Help.Usage) ↔ AskUsage (map (λ w. string_bytes w) words.now) }
    ensures version { (result ≡ Some Help.Version) ↔ AskVersion (map (λ w. string_bytes w) words.now) }
{
    if words.len() != 1 {
        return None;
    }
    match words[0].as_str() {
        "--help" => Some(Help::Usage),
        "--version" => Some(Help::Version),
        _ => None,
    }
}
