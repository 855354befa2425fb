//! The arguments of a program.

ghost use Rattle.std.specs.Prelude.{◌≡◌, drop, IfOk};
ghost use Rattle.std.specs.Vec.Iter.{into_iter_items};

use std::alloc::Global;
use std::env::Args;
use tardis_base::NoMemory;

/// The arguments behind the first, which is the program's name.
pub fn words_behind_name(alloc: Global, args: Args) -> Result<Vec<String>, NoMemory>
    ensures { IfOk result (λ words. words.items ≡ drop 1 (into_iter_items args)) }
{
    let mut rest = args;
    let _ = rest.next();
    let mut words = Vec::new(alloc);
    while let Some(word) = rest.next() {
        match words.push(word) {
            Ok(()) => {}
            Err(_) => return Err(NoMemory),
        }
    }
    Ok(words)
}
