//! Whether bytes are an export.

ghost use Rattle.std.specs.Prelude.{◌≡◌};
ghost use Rattle.branch_export.specs.Readings.{IsJudged, CountsAs};

use item_bytes::Reader;
use tardis_base::key_follows;

/// Whether the bytes are an export: their number, and so many entries in ascending order of their keys, and nothing else.
///
/// The cost grows with the bytes.
pub fn is_export(bytes: &[u8]) -> bool
    ensures { IsJudged bytes.now result }
{
    let mut reader = Reader::new(bytes);
    match reader.u64() {
        Some(count) => match ascending_entries(&mut reader, count) {
            Some(()) => reader.is_done(),
            None => false,
        },
        None => false,
    }
}

/// Reads so many entries in ascending order of their keys. After None nothing is known of the reader.
fn ascending_entries(reader: &mut Reader<'_>, count: u64) -> Option<()>
    ensures { CountsAs count reader.old result reader.new }
{
    let mut last = None;
    for _place in 0..count {
        let key = reader.key()?;
        let _value = reader.value()?;
        if !key_follows(last, key) {
            return None;
        }
        last = Some(key);
    }
    Some(())
}
