//! The line `N auto`.

ghost use Rattle.std.specs.Prelude.{◌≡◌};
ghost use Rattle.auto_run.specs.AutoLines.{auto_actor};

use text_words::Words;

/// The actor whose auto line this is.
pub(crate) fn auto_actor(line: &[u8]) -> Option<u16>
    ensures { result ≡ auto_actor line.now }
{
    let words = Words::new(line);
    match words.u16(b' ') {
        Some((actor, left)) => match left.behind(b"auto ") {
            Some(rest) => { if rest.is_over() { Some(actor) } else { None } },
            None => None,
        },
        None => None,
    }
}
