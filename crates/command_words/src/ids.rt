//! The ids of states, as words.

ghost use Rattle.std.specs.Prelude.{◌≡◌, ◌==◌};
ghost use Rattle.std.specs.List.{before_first, after_first};
ghost use Rattle.command_words.specs.Values.{id_of, valid_id};

use crate::numbers::read_plain_number;
use tardis_base::StateId;

/// The id that a word writes: the number of its site, `.`, and its sequence.
pub(crate) fn read_id(word: &str) -> Option<StateId>
    ensures { result ≡ id_of word.now }
{
    let (site, sequence) = halves(word);
    let site = read_plain_number(site, 0, 65_535)?;
    let sequence = read_plain_number(sequence, 0, u32::MAX)?;
    valid_id(StateId {
        site: site as u16,
        sequence,
    })
}

/// What stands before and behind the first `.`. Without one, all stands before it.
fn halves(word: &str) -> (&str, &str)
    ensures site { result.0.now ≡ before_first (λ b. b == 46) word.now }
    ensures sequence { result.1.now ≡ after_first (λ b. b == 46) word.now }
{
    match word.split_once('.') {
        Some((site, sequence)) => (site, sequence),
        None => (word, ""),
    }
}

/// The id, where it is one.
fn valid_id(id: StateId) -> Option<StateId>
    ensures { result ≡ valid_id id }
{
    if (id.site == 0) == (id.sequence == 0) {
        Some(id)
    } else {
        None
    }
}
