//! Whether a server collects.

ghost use Rattle.std.specs.Prelude.{◌≡◌, map, codes};
ghost use Rattle.std.specs.String.{string_bytes};
ghost use Rattle.command_words.specs.Settings.{settings, values};
ghost use Rattle.command_words.specs.Values.{flag};
ghost use Rattle.daemon_words.specs.Collecting.{either_of, collects};

use command_words::{Given, how_given, read_tidy};

/// Whether the server collects: unless it is to keep its history, by `--keep-history`. `--tidy` says that it collects, too. The words
/// can't say both.
pub(crate) fn read_collects(words: &[String]) -> Option<bool>
    ensures { result ≡ collects (settings (map (λ w. string_bytes w) words.now)) }
{
    let tidy = read_tidy(words)?;
    let keep = read_keep_history(words)?;
    either_of(tidy, keep)
}

/// What the two options say together.
fn either_of(tidy: bool, keep: bool) -> Option<bool>
    ensures { result ≡ either_of tidy keep }
{
    if tidy && keep { None } else { Some(!keep) }
}

/// `--keep-history`, once at most.
fn read_keep_history(words: &[String]) -> Option<bool>
    ensures { result ≡ flag (values (codes "--keep-history") (settings (map (λ w. string_bytes w) words.now))) }
{
    match how_given(words, "--keep-history") {
        Given::Absent => Some(false),
        Given::Bare => Some(true),
        Given::Value(_) => None,
        Given::Twice => None,
    }
}
