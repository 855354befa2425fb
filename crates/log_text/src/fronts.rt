//! What stands at the front of bytes.

ghost use Rattle.log_text.specs.Fronts.{IsFront};

/// What is next in the text of a log.
#[derive(Clone, Copy)]
pub(crate) enum Front {
    /// The byte that ends an entry.
    End,
    /// A byte of an item, spelled in so many bytes.
    Byte(u8, usize),
    /// Neither.
    Stop,
}

/// Reads what is next.
pub(crate) fn read_front(bytes: &[u8]) -> Front
    ensures { IsFront bytes.now result }
{
    match bytes {
        [247, ..] => Front::End,
        [245, ..] => Front::Byte(0, 1),
        [246, name, ..] => {
            if *name >= 1 && *name <= 3 {
                Front::Byte(*name + 244, 2)
            } else {
                Front::Stop
            }
        }
        [plain, ..] => {
            if *plain == 0 || *plain == 246 {
                Front::Stop
            } else {
                Front::Byte(*plain, 1)
            }
        }
        [] => Front::Stop,
    }
}
