//! The options of a server that may be left out, and those that stand only beside others.

ghost use Rattle.std.specs.Prelude.{◌≡◌, map, option_map};
ghost use Rattle.std.specs.String.{string_bytes};
ghost use Rattle.command_words.specs.Settings.{settings, values};
ghost use Rattle.daemon_words.specs.Values.{number_or_none, may_stand, address_or_none};

use command_words::{Given, count_of, how_given, is_address, read_number};

/// The number of an option that may be left out, where there is one.
pub(crate) fn read_number_or_none(
    words: &[String],
    name: &str,
    least: u32,
    most: u32,
) -> Option<Option<u32>>
    ensures { result ≡ number_or_none least most (values name.now (settings (map (λ w. string_bytes w) words.now))) }
{
    match how_given(words, name) {
        Given::Absent => Some(None),
        Given::Value(word) => match read_number(word, least, most) {
            Some(number) => Some(Some(number)),
            None => None,
        },
        Given::Bare => None,
        Given::Twice => None,
    }
}

/// Whether an option may stand that speaks of something which is there or isn't.
pub(crate) fn may_stand(words: &[String], name: &str, there: bool) -> bool
    ensures { result ≡ may_stand there (values name.now (settings (map (λ w. string_bytes w) words.now))) }
{
    there || count_of(words, name) == 0
}

/// The address of an option that may be left out.
pub(crate) fn read_address_or_none<'a>(words: &'a [String], name: &str) -> Option<Option<&'a str>>
    ensures { option_map (λ found. option_map (λ word. word.now) found) result
        ≡ address_or_none (values name.now (settings (map (λ w. string_bytes w) words.now))) }
{
    match how_given(words, name) {
        Given::Absent => Some(None),
        Given::Value(word) => {
            if is_address(word) {
                Some(Some(word))
            } else {
                None
            }
        }
        Given::Bare => None,
        Given::Twice => None,
    }
}
