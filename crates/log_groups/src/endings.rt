//! How a log ends.

ghost use Rattle.std.specs.Prelude.{◌≡◌, ℕ, List, drop};
ghost use Rattle.std.specs.Bool.{Decides};
ghost use Rattle.log_text.specs.Texts.{IsZeros, HasNoEntry};
ghost use Rattle.log_groups.specs.Logs.{longest_entry, behind_end, Ends};

use crate::groups::Ending;
use tardis_base::MAX_FRAME;

/// The most bytes of an entry.
const MAX_ENTRY: usize = 2 * MAX_FRAME + 1;

/// How a log ends where no entry is next, whichever group would be.
pub(crate) fn ending_of(rest: &[u8]) -> Ending
    requires { HasNoEntry rest.now }
    ensures { (life : List ℕ) (number : ℕ) → Ends life number rest.now result }
{
    if is_zeros(rest) {
        return Ending::Whole;
    }
    if !is_zeros(behind_end(rest)) {
        return Ending::Damaged;
    }
    if !is_zeros(behind_entry(rest)) {
        return Ending::Damaged;
    }
    Ending::Torn
}

/// What stands behind as many bytes as an entry may have.
fn behind_entry(bytes: &[u8]) -> &[u8]
    ensures { result.now ≡ drop longest_entry bytes.now }
{
    if bytes.len() < MAX_ENTRY {
        return &bytes[bytes.len()..];
    }
    &bytes[MAX_ENTRY..]
}

fn is_zeros(bytes: &[u8]) -> bool
    ensures { Decides result (IsZeros bytes.now) }
{
    for byte in bytes {
        if *byte != 0 {
            return false;
        }
    }
    true
}

/// What stands behind the first byte that ends an entry.
fn behind_end(bytes: &[u8]) -> &[u8]
    ensures { result.now ≡ behind_end bytes.now }
{
    for i in 0..bytes.len() {
        if bytes[i] == 247 {
            return &bytes[i + 1..];
        }
    }
    &bytes[bytes.len()..]
}
