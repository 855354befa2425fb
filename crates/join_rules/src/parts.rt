//! Text in parts, with a comma between each two.

ghost use Rattle.std.specs.Prelude.{◌≡◌, ◌==◌, [], ◌∷◌, length, MatchOption};
ghost use Rattle.join_rules.specs.Parts.{parts};

use memchr::memchr;
use std::marker::Model;

/// The parts of a text that are left.
#[derive(Drop)]
pub(crate) struct Parts<'a> {
    left: Option<&'a [u8]>,
}

impl<'a> Model for Parts<'a> {
    ghost use Rattle.std.specs.Prelude.{List, ℕ};
    ghost use Rattle.std.specs.Option.{option_copied};
    ghost use Rattle.join_rules.specs.Parts.{parts_left};

    ghost Value = { List (List ℕ) };

    ghost view = { λ a. parts_left (option_copied a.left) };
}

impl<'a> Parts<'a> {
    pub(crate) fn new(text: &'a [u8]) -> Parts<'a>
        ensures { result ≡ parts text.now }
    {
        Parts { left: Some(text) }
    }

    /// No parts.
    pub(crate) fn none() -> Parts<'a>
        ensures { result ≡ [] }
    {
        Parts { left: None }
    }

    /// The same parts.
    pub(crate) fn again(&self) -> Parts<'a>
        ensures { result ≡ self.now }
    {
        Parts { left: self.left }
    }

    /// The first part, and those behind it.
    pub(crate) fn split_first(&self) -> Option<(&'a [u8], Parts<'a>)>
        ensures { MatchOption result (self.now ≡ []) (λ split. self.now ≡ split.0.now ∷ split.1) }
    {
        let left = self.left?;
        match memchr(b',', left) {
            Some(place) => Some((
                &left[..place],
                Parts {
                    left: Some(&left[place + 1..]),
                },
            )),
            None => Some((left, Parts { left: None })),
        }
    }

    /// Whether no part is left.
    pub(crate) fn is_over(&self) -> bool
        ensures { result ≡ (length self.now == 0) }
    {
        self.left.is_none()
    }
}

impl<'a> Iterator for Parts<'a> {
    type Item = &'a [u8];

    ghost use Rattle.std.specs.Iterator.{YieldsFirstRef, item_count};

    ghost next_gives = { YieldsFirstRef (λ s. s) };

    ghost remaining = { item_count (λ s. s) };

    fn next(&mut self) -> Option<&'a [u8]> {
        match self.split_first() {
            Some((first, rest)) => {
                *self = rest;
                Some(first)
            }
            None => None,
        }
    }
}
