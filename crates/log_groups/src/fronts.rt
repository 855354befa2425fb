//! The first item of a log.

ghost use Rattle.std.specs.Prelude.{◌≡◌, ◌++◌, if◌then◌else◌, is_ok, IfOk};
ghost use Rattle.log_text.specs.Texts.{entry};
ghost use Rattle.sha2.specs.Sha256.{sha256};
ghost use Rattle.log_groups.specs.Items.{front_text, front_item};

use log_text::put_entry;
use sha2::{Digest, Sha256};
use std::alloc::Global;
use tardis_base::NoMemory;

/// The name of the format.
pub(crate) const NAME: [u8; 8] = *b"tardislg";

/// Its version.
pub(crate) const VERSION: u16 = 1;

/// What the front of a log says: how the site may grow whose log it is, which site it is, and the log's life: 16 bytes that a
/// new file draws, so that no group of another file passes for one of this.
#[derive(Clone, Copy)]
pub struct LogFront {
    pub sites: u16,
    pub own: u16,
    pub max_kept: u32,
    pub max_path: u32,
    pub max_sessions: u16,
    pub life: [u8; 16],
}

/// Appends the entry of the front, or nothing.
pub fn put_front(log: &mut Vec<u8>, front: &LogFront, alloc: Global) -> Result<(), NoMemory>
    ensures items { log.new.items ≡ (if is_ok result then log.old.items ++ entry (front_item front.now) else log.old.items) }
{
    match spelled_front(front, alloc) {
        Ok(item) => put_entry(log, item.as_slice()),
        Err(NoMemory) => Err(NoMemory),
    }
}

/// The front's item: its text, and the check of this.
#[tactic(auto, unfolding(crate::specs::Items::front_item, crate::specs::Items::check))]
pub(crate) fn spelled_front(front: &LogFront, alloc: Global) -> Result<Vec<u8>, NoMemory>
    ensures { IfOk result (λ item. item.items ≡ front_item front.now) }
{
    let mut text = text_of(front, alloc)?;
    let digest = digest_of(text.as_slice());
    text.extend_from_slice(&digest[..8])?;
    Ok(text)
}

fn digest_of(bytes: &[u8]) -> [u8; 32]
    ensures { result ≡ sha256 bytes.now }
{
    Sha256::digest(bytes)
}

/// What the front says.
#[tactic(auto, unfolding(crate::specs::Items::front_text))]
fn text_of(front: &LogFront, alloc: Global) -> Result<Vec<u8>, NoMemory>
    ensures { IfOk result (λ text. text.items ≡ front_text front.now) }
{
    let mut text = Vec::new(alloc);
    text.extend_from_slice(&NAME)?;
    text.extend_from_slice(&VERSION.to_be_bytes())?;
    text.extend_from_slice(&front.sites.to_be_bytes())?;
    text.extend_from_slice(&front.own.to_be_bytes())?;
    text.extend_from_slice(&front.max_kept.to_be_bytes())?;
    text.extend_from_slice(&front.max_path.to_be_bytes())?;
    text.extend_from_slice(&front.max_sessions.to_be_bytes())?;
    text.extend_from_slice(&front.life)?;
    Ok(text)
}
