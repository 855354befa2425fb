//! The words that ask the server to tell of itself.

ghost use Rattle.std.specs.Prelude.{◌≡◌, ◌↔◌, Some, map};
ghost use Rattle.std.specs.String.{string_bytes};
ghost use Rattle.command_words.specs.Helps.{AskVersion};
ghost use Rattle.daemon_words.specs.Helps.{AskDaemonUsage};

use command_words::Help;

/// The help for which the words of `tardisd` ask: `--help`, `-h`, `help` or `--version`, alone.
pub fn daemon_help_of(words: &[String]) -> Option<Help>
    ensures usage { (result ≡ Some Help.Usage) ↔ AskDaemonUsage (map (λ w. string_bytes w) words.now) }
    ensures version { (result ≡ Some Help.Version) ↔ AskVersion (map (λ w. string_bytes w) words.now) }
{
    if words.len() != 1 {
        return None;
    }
    match words[0].as_str() {
        "--help" | "-h" | "help" => Some(Help::Usage),
        "--version" => Some(Help::Version),
        _ => None,
    }
}
