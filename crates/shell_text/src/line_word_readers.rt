//! Reading the words of requests that take no memory.
//!
//! How requests are written as lines is stated in `docs/FORMATS.md`.

ghost use Rattle.std.specs.Prelude.{◌≡◌};
ghost use Rattle.std.specs.Prelude.{drop};
ghost use Rattle.shell_text.specs.RequestTexts.{begin_text, flag_rows, flags_text, flags_with_number, follow_text, raise_text};
ghost use Rattle.tardis_base.specs.declared.requests.Begin.{Begin};
ghost use Rattle.tardis_base.specs.declared.requests.Request.{Request};
ghost use Rattle.tardis_base.specs.declared.requests.Request.TheVariants.{Commit};
ghost use Rattle.text_words.specs.Texts.{by_prefix, id_until, number_until};
ghost use Rattle.std.specs.Prelude.{◌^◌};
ghost use Rattle.wire_item.specs.Fronts.{alone, made, whole};

use tardis_base::{Begin, EndFlags, Request};
use text_words::Words;

/// The thing, where nothing is left behind it; else it is let go.
pub fn alone<T: Drop>(thing: T, left: &Words) -> Option<T>
    ensures { result ≡ alone thing left.now }
{
    if left.is_over() { Some(thing) } else { None }
}

pub fn read_open(words: &Words) -> Option<Request>
    ensures { result ≡ whole (made Request.Open follow_text) words.now }
{
    match words.behind(b"follow ") {
        Some(left) => alone(Request::Open { follow: true }, &left),
        None => alone(Request::Open { follow: false }, words),
    }
}

pub fn read_begin(words: &Words) -> Option<Request>
    ensures { result ≡ whole (made Request.Begin begin_text) words.now }
{
    if let Some(left) = words.behind(b"any ") {
        return alone(Request::Begin { begin: Begin::Any }, &left);
    }
    if let Some(left) = words.behind(b"ancestor ") {
        return alone(
            Request::Begin {
                begin: Begin::Ancestor,
            },
            &left,
        );
    }
    if let Some(left) = words.behind(b"parent ") {
        return alone(
            Request::Begin {
                begin: Begin::Parent,
            },
            &left,
        );
    }
    match words.behind(b"at ") {
        Some(left) => read_begin_at(&left),
        None => None,
    }
}

fn read_begin_at(words: &Words) -> Option<Request>
    ensures { result ≡ whole (made (λ x. Request.Begin (Begin.At x)) (id_until 32)) words.now }
{
    match words.id(b' ') {
        Some((state, left)) => alone(
            Request::Begin {
                begin: Begin::At(state),
            },
            &left,
        ),
        None => None,
    }
}

pub fn read_ceiling(words: &Words) -> Option<Request>
    ensures { result ≡ whole (made Request.Ceiling (id_until 32)) words.now }
{
    match words.id(b' ') {
        Some((state, left)) => alone(Request::Ceiling { state }, &left),
        None => None,
    }
}

pub fn read_show(words: &Words) -> Option<Request>
    ensures { result ≡ whole (made Request.Show (id_until 32)) words.now }
{
    match words.id(b' ') {
        Some((state, left)) => alone(Request::Show { state }, &left),
        None => None,
    }
}

pub fn read_raise(words: &Words) -> Option<Request>
    ensures { result ≡ whole raise_text words.now }
{
    if let Some((state, left)) = words.id(b' ') {
        return alone(Request::Raise { state }, &left);
    }
    match words.behind(b"auto ") {
        Some(left) => alone(Request::RaiseAuto, &left),
        None => None,
    }
}

pub fn read_tidy(words: &Words) -> Option<Request>
    ensures { result ≡ whole (made Request.Tidy (number_until (2 ^ 16) 32)) words.now }
{
    match words.u16(b' ') {
        Some((n, left)) => alone(Request::Tidy { n }, &left),
        None => None,
    }
}

pub fn read_commit(words: &Words) -> Option<Request>
    ensures { result ≡ whole (made (λ p. Commit (record { 0 = p.0 }) p.1) flags_text) words.now }
{
    match read_flags(words) {
        Some(((flags, k), left)) => alone(
            Request::Commit {
                flags: EndFlags(flags),
                k,
            },
            &left,
        ),
        None => None,
    }
}

/// The flags of a Commit, and their number.
fn read_flags<'a>(words: &Words<'a>) -> Option<((u8, u16), Words<'a>)>
    ensures { result ≡ flags_text words.now }
{
    if let Some(left) = words.behind(b"- ") {
        return Some(((0, 0), left));
    }
    if let Some(left) = words.behind(b"ser ") {
        return Some(((1, 0), left));
    }
    if let Some(left) = words.behind(b"si ") {
        return Some(((2, 0), left));
    }
    if let Some(left) = words.behind(b"ser+si ") {
        return Some(((3, 0), left));
    }
    if let Some(left) = words.behind(b"nb ") {
        return Some(((4, 0), left));
    }
    if let Some(left) = words.behind(b"ser+nb ") {
        return Some(((5, 0), left));
    }
    if let Some(left) = words.behind(b"si+nb ") {
        return Some(((6, 0), left));
    }
    if let Some(left) = words.behind(b"ser+si+nb ") {
        return Some(((7, 0), left));
    }
    read_numbered_flags(words)
}

/// Flags of which one has a number.
fn read_numbered_flags<'a>(words: &Words<'a>) -> Option<((u8, u16), Words<'a>)>
    ensures { result ≡ by_prefix (drop 8 flag_rows) words.now }
{
    if let Some(left) = words.behind(b"kb:") {
        return with_number(8, &left);
    }
    if let Some(left) = words.behind(b"ser+kb:") {
        return with_number(9, &left);
    }
    if let Some(left) = words.behind(b"si+kb:") {
        return with_number(10, &left);
    }
    if let Some(left) = words.behind(b"ser+si+kb:") {
        return with_number(11, &left);
    }
    if let Some(left) = words.behind(b"nb+kb:") {
        return with_number(12, &left);
    }
    if let Some(left) = words.behind(b"ser+nb+kb:") {
        return with_number(13, &left);
    }
    if let Some(left) = words.behind(b"si+nb+kb:") {
        return with_number(14, &left);
    }
    match words.behind(b"ser+si+nb+kb:") {
        Some(left) => with_number(15, &left),
        None => None,
    }
}

/// The number of flags that have one.
fn with_number<'a>(flags: u8, words: &Words<'a>) -> Option<((u8, u16), Words<'a>)>
    ensures { result ≡ flags_with_number flags words.now }
{
    match words.u16(b' ') {
        Some((number, left)) => {
            if number >= 1 {
                Some(((flags, number), left))
            } else {
                None
            }
        },
        None => None,
    }
}
