//! What is read of a key where states parted.

ghost use Rattle.std.specs.Prelude.{◌≡◌, List, map, IsTrue, IfOk};
ghost use Rattle.std.specs.List.{list_all};
ghost use Rattle.tardis_base.specs.declared.ids.StateId.{StateId};
ghost use Rattle.tardis_base.specs.declared.records.Record.{Record};
ghost use Rattle.plain_dag.specs.Collection.{is_kept};
ghost use Rattle.record_store.specs.Stands.{StoreStands};
ghost use Rattle.plain_site.specs.Site.{Site};
ghost use Rattle.plain_site.specs.Sound.{IsSound};
ghost use Rattle.plain_questions.specs.declared.questions.Question.{Question};
ghost use Rattle.plain_questions.specs.Answer.{answer, fork_read};

use crate::denials::{denial_of, kept_slots};
use crate::found::version_of;
use crate::pages::number_of;
use fork_points::fork_points;
use plain_questions::{Answered, Denial, ForkRead, ForkReadList};
use record_store::RecordStore;
use std::alloc::Global;
use tardis_base::{Key, MAX_PARENTS, NoMemory, StateId};

/// The read of the key at each state at which these states parted, in arrival order.
///
/// Refused where they parted at more than 8 (ForkPoints).
pub fn tell_base(
    alloc: Global,
    store: &RecordStore,
    states: &[StateId],
    key: &Key,
) -> Result<Answered, NoMemory>
    ensures { (site : Site) → StoreStands store.now site.dag site.collected → IsSound site
        → IfOk result (λ told. told ≡ answer site (Question.Base states.now key.now)) }
{
    let dag = store.dag();
    if let Some(why) = denial_of(dag, states) {
        return Ok(Answered::Refused { why });
    }
    let slots = kept_slots(alloc, dag, states)?;
    let page = fork_points(alloc, dag, slots.as_slice())?;
    if page.total as usize > MAX_PARENTS {
        return Ok(Answered::Refused {
            why: Denial::ForkPoints {
                number: number_of(page.total as usize),
            },
        });
    }
    Ok(Answered::ForkReads {
        reads: reads_at(alloc, store, page.first.as_slice(), key)?,
    })
}

/// The read of the key at each of these states, which are kept.
fn reads_at(
    alloc: Global,
    store: &RecordStore,
    points: &[StateId],
    key: &Key,
) -> Result<ForkReadList, NoMemory>
    ensures { (rs : List Record) (ks : List StateId) → StoreStands store.now rs ks → IsTrue (list_all (is_kept rs ks) points.now)
        → IfOk result (λ reads. reads ≡ map (fork_read rs key.now) points.now) }
{
    let mut reads = ForkReadList::new(alloc);
    for point in points {
        if let Some(slot) = store.dag().slot_of(*point) {
            reads.push(ForkRead {
                fork_point: *point,
                found: version_of(store.read_at(slot, key))?,
            })?;
        }
    }
    Ok(reads)
}
