//! The text of a front, and of an entry that is to be written.

ghost use Rattle.std.specs.Prelude.{◌≡◌, ◌≤◌, [], length, IfOk};
ghost use Rattle.log_text.specs.Texts.{entry};
ghost use Rattle.log_groups.specs.Items.{IsBody, group};
ghost use Rattle.site_log.specs.Sizes.{longest_text};
ghost use Rattle.site_log.specs.Files.{text_of};

use crate::appends::MAX_TEXT;
use log_groups::{LogFront, put_front, put_group};
use std::alloc::Global;
use std::marker::Model;
use tardis_base::NoMemory;

/// The text of a log's front.
pub(crate) fn front_text(front: &LogFront, alloc: Global) -> Result<Vec<u8>, NoMemory>
    ensures { IfOk result (λ text. text.items ≡ text_of front.now []) }
{
    let mut text = Vec::new(alloc);
    match put_front(&mut text, front, alloc) {
        Ok(()) => Ok(text),
        Err(NoMemory) => Err(NoMemory),
    }
}

/// Bytes in room for any entry, which was taken once.
#[derive(Drop)]
pub struct EntryText {
    bytes: Vec<u8>,
}

impl Model for EntryText {
    ghost use Rattle.std.specs.Prelude.{List, ℕ, ◌≤◌, length, vec_capacity};
    ghost use Rattle.site_log.specs.Sizes.{longest_text};

    ghost Value = { List ℕ };

    ghost view = { λ t. t.bytes.items };

    ghost invariant = { λ t. (length t.bytes.items ≤ longest_text) × (longest_text ≤ vec_capacity t.bytes) };
}

impl EntryText {
    /// No bytes. It takes all its room now, and none later.
    pub(crate) fn new(alloc: Global) -> Result<EntryText, NoMemory>
        ensures { IfOk result (λ text. text ≡ []) }
    {
        match Vec::with_capacity(alloc, MAX_TEXT) {
            Ok(bytes) => Ok(EntryText { bytes }),
            Err(_) => Err(NoMemory),
        }
    }

    pub(crate) fn bytes(&self) -> &[u8]
        ensures bytes { result.now ≡ self.now }
        ensures room { length result.now ≤ longest_text }
    {
        self.bytes.as_slice()
    }

    /// Spells the entry of a group, in the place of what was there.
    pub(crate) fn spell(&mut self, life: &[u8; 16], number: u64, body: &[u8])
        requires { IsBody body.now }
        ensures { self.new ≡ entry (group life.now number body.now) }
    {
        self.bytes.clear();
        let _ = put_group(&mut self.bytes, life, number, body);
    }
}
