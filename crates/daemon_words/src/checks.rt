//! The words that ask `tardisd` to check a file.

ghost use Rattle.std.specs.Prelude.{◌≡◌, None, map, option_map, IfSome};
ghost use Rattle.std.specs.String.{string_bytes};
ghost use Rattle.command_words.specs.Settings.{settings};
ghost use Rattle.daemon_words.specs.Daemons.{daemon};
ghost use Rattle.daemon_words.specs.Checks.{checked_file, checked_path};

use command_words::is_address;

/// The path of the file that is to be checked, where the words are `--check` and `--file PATH`, in either order, and nothing else. Such
/// words ask for no server.
pub fn checked_file(words: &[String]) -> Option<&str>
    ensures path { option_map (λ path. path.now) result ≡ checked_file (map (λ w. string_bytes w) words.now) }
    ensures other { IfSome result (λ _. daemon (settings (map (λ w. string_bytes w) words.now)) ≡ None) }
{
    let [first, second, third] = words else {
        return None;
    };
    if first.as_str() == "--check" && second.as_str() == "--file" {
        path_of(third.as_str())
    } else if first.as_str() == "--file" && third.as_str() == "--check" {
        path_of(second.as_str())
    } else {
        None
    }
}

/// The word, where it may be a path.
fn path_of(word: &str) -> Option<&str>
    ensures { option_map (λ path. path.now) result ≡ checked_path word.now }
{
    if is_address(word) { Some(word) } else { None }
}
