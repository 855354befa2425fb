//! How long a peer is waited for and left alone, in milliseconds.

ghost use Rattle.std.specs.Prelude.{◌≡◌, ◌-◌, if◌then◌else◌};
ghost use Rattle.site_peers.specs.Times.{longer, has_passed};

/// So long a call and an answer are waited for.
pub const PATIENCE: u64 = 30_000;

/// So long a peer is left alone after a first failure.
pub const FIRST_PAUSE: u64 = 1_000;

/// The pause doubles with each failure in a row, up to this.
pub const LONGEST_PAUSE: u64 = 60_000;

/// The pause after one failure more.
pub(crate) fn longer_pause(pause: u64) -> u64
    ensures { result ≡ longer pause }
{
    pause.saturating_mul(2).min(LONGEST_PAUSE)
}

/// Whether so long has passed since then. A clock that went back says no.
pub(crate) fn passed(now: u64, since: u64, wait: u64) -> bool
    ensures { result ≡ has_passed now since wait }
{
    wait <= now.saturating_sub(since)
}

/// How much is left of so long since then.
pub(crate) fn left(now: u64, since: u64, wait: u64) -> u64
    ensures { result ≡ wait - (now - since) }
{
    wait.saturating_sub(now.saturating_sub(since))
}

/// How long it is until the next exchange.
pub(crate) fn wait_after(at_once: bool, every: u64) -> u64
    ensures { result ≡ (if at_once then 0 else every) }
{
    if at_once { 0 } else { every }
}
