//! The first word that is no option is named, with the option that was meant.

use command_words::words_behind_name;
use std::alloc::Global;
use std::{env, fmt};
use strsim::levenshtein;

/// The options of the server.
const OPTIONS: [&str; 21] = [
    "--listen",
    "--clients",
    "--peers",
    "--mode",
    "--idle",
    "--connections",
    "--sessions",
    "--states",
    "--peer",
    "--every",
    "--sites",
    "--site",
    "--tidy",
    "--keep-history",
    "--file",
    "--rules",
    "--join-after",
    "--check",
    "--help",
    "--version",
    "-h",
];

/// So many letters may differ where an option is guessed.
const MOST_EDITS: usize = 3;

/// Names the first word that looks like an option and is none. Where the words can't be had again nothing is told.
pub(crate) fn tell_unknown(rt: &HostRuntime) {
    let Ok(args) = env::args(rt) else {
        return;
    };
    let Ok(words) = words_behind_name(rt.alloc(), args) else {
        return;
    };
    for word in words.iter() {
        let word = word.as_str();
        if word.starts_with('-') && !OPTIONS.contains(&word) {
            let meant = nearest(rt.alloc(), word);
            let _ = rt.eprintln(Unknown { word, meant });
            return;
        }
    }
}

/// The option to which the fewest edits lead from a word, if few do.
fn nearest(alloc: Global, word: &str) -> Option<&'static str> {
    let (mut found, mut least) = (None, MOST_EDITS + 1);
    for option in OPTIONS.iter() {
        let edits = levenshtein(alloc, word, option).unwrap_or(least);
        if edits < least {
            found = Some(*option);
            least = edits;
        }
    }
    found
}

/// The line that a word is no option.
#[derive(Clone, Copy)]
struct Unknown<'a> {
    word: &'a str,
    meant: Option<&'static str>,
}

impl fmt::Display for Unknown<'_> {
    fn fmt<W: fmt::Write>(&self, f: &mut fmt::Formatter<W>) -> fmt::Result {
        let Unknown { word, meant } = *self;
        match meant {
            Some(meant) => write!(f, "tardisd: {word}: no such option; did you mean {meant}?"),
            None => write!(f, "tardisd: {word}: no such option"),
        }
    }
}
