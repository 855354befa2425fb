//! The union of two sets, item by item.

ghost use Rattle.std.specs.Prelude.{◌≡◌, [], ◌∷◌, IsTrue, MatchOption};
ghost use Rattle.tardis_base.specs.Keys.{are_ascending_keys};
ghost use Rattle.join_rules.specs.Values.{union};

use crate::parts::Parts;
use std::cmp::Ordering;
use std::marker::Model;

/// What is left of the union of two sets, each of ascending items.
#[derive(Drop)]
pub(crate) struct Union<'a> {
    left: Parts<'a>,
    right: Parts<'a>,
}

impl<'a> Model for Union<'a> {
    ghost use Rattle.std.specs.Prelude.{List, ℕ, IsTrue};
    ghost use Rattle.tardis_base.specs.Keys.{are_ascending_keys};
    ghost use Rattle.join_rules.specs.Values.{union};

    ghost Value = { List (List ℕ) };

    ghost view = { λ a. union a.left a.right };

    ghost invariant = { λ a. IsTrue (are_ascending_keys a.left) × IsTrue (are_ascending_keys a.right) };
}

impl<'a> Union<'a> {
    pub(crate) fn new(left: Parts<'a>, right: Parts<'a>) -> Union<'a>
        requires left { IsTrue (are_ascending_keys left) }
        requires right { IsTrue (are_ascending_keys right) }
        ensures { result ≡ union left.entry right.entry }
    {
        Union { left, right }
    }
}

impl<'a> Iterator for Union<'a> {
    type Item = &'a [u8];

    ghost use Rattle.std.specs.Iterator.{YieldsFirstRef, item_count};

    ghost next_gives = { YieldsFirstRef (λ s. s) };

    ghost remaining = { item_count (λ s. s) };

    fn next(&mut self) -> Option<&'a [u8]> {
        match self.split_first() {
            Some((first, rest)) => {
                *self = rest;
                Some(first)
            }
            None => None,
        }
    }
}

impl<'a> Union<'a> {
    /// The first item, and those behind it.
    fn split_first(&self) -> Option<(&'a [u8], Union<'a>)>
        ensures { MatchOption result (self.now ≡ []) (λ split. self.now ≡ split.0.now ∷ split.1) }
    {
        let Some((a, left)) = self.left.split_first() else {
            return alone(&self.right);
        };
        let Some((b, right)) = self.right.split_first() else {
            return alone(&self.left);
        };
        match a.cmp(b) {
            Ordering::Less => Some((
                a,
                Union {
                    left,
                    right: self.right.again(),
                },
            )),
            Ordering::Equal => Some((a, Union { left, right })),
            Ordering::Greater => Some((
                b,
                Union {
                    left: self.left.again(),
                    right,
                },
            )),
        }
    }
}

/// The first item of one set, and those behind it.
fn alone<'a>(items: &Parts<'a>) -> Option<(&'a [u8], Union<'a>)>
    requires { IsTrue (are_ascending_keys items.now) }
    ensures { MatchOption result (items.now ≡ []) (λ split. items.now ≡ split.0.now ∷ split.1) }
{
    match items.split_first() {
        Some((first, rest)) => Some((
            first,
            Union {
                left: Parts::none(),
                right: rest,
            },
        )),
        None => None,
    }
}
