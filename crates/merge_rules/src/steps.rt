//! The auto step: the two leaves that arrived first are merged by rules.
//!
//! What it answers is stated in `docs/RULES.md`.

ghost use Rattle.std.specs.Prelude.{◌≡◌, IsTrue, IfSome};
ghost use Rattle.state_dag.specs.Table.{is_slot};
ghost use Rattle.plain_site.specs.Site.{Site};
ghost use Rattle.stored_site.specs.Joins.{IsMergeEnd};
ghost use Rattle.merge_rules.specs.Auto.{auto_step, end_of};
ghost use Rattle.merge_rules.specs.Steps.{Ends, FirstTwo, MayJoin, JoinsAs};

use join_rules::{Settled, settle};
use rule_list::RuleList;
use state_dag::StateDag;
use std::alloc::Global;
use stored_site::StoredSite;
use tardis_base::{Key, NoMemory, Refusal, Reply, Slot, StateId, WriteSet};

/// How an auto step ended.
#[derive(Drop)]
pub enum AutoEnd {
    /// There is one leaf, and nothing to merge.
    Single,
    /// The session may begin no transaction, or the site doesn't take the state.
    Refused(Refusal),
    /// The leaves have this many conflict keys, more than 64; 4,294,967,295 stands for more than that.
    Wide { keys: u32 },
    /// The least conflict key whose rule gives no value.
    Unmerged(Key),
    /// The state that joins the leaves.
    Merged(StateId),
}

/// Merges the two leaves that arrived first, as the actor's session: each of their conflict keys gets the value that its
/// rule gives, and no other key is written. Unless that ends as `Merged`, and with no memory, the site is as before.
///
/// The cost is that of `settle`, and then that of `StoredSite::commit_merge`; it doesn't grow with the number of leaves.
pub fn auto_step<A: StoredSite>(
    alloc: Global,
    core: &mut A,
    actor: u16,
    rules: &RuleList,
) -> Result<AutoEnd, NoMemory>
    ensures plain { (site : Site) → A.stands core.old site → Ends (A.stands core.new) (auto_step site actor rules.now) site result }
    ensures opening { A.opened core.new ≡ A.opened core.old }
{
    let Some((a, b)) = first_two(core.store().dag()) else {
        return Ok(AutoEnd::Single);
    };
    if let Some(refusal) = core.begin_refusal(actor) {
        return Ok(AutoEnd::Refused(refusal));
    }
    match settle(alloc, core.store(), rules, a, b)? {
        Settled::Wide(keys) => Ok(AutoEnd::Wide { keys }),
        Settled::Unmerged(key) => Ok(AutoEnd::Unmerged(key)),
        Settled::Values(writes) => join(core, actor, a, b, writes),
    }
}

/// The slots of the two leaves that arrived first, the lesser id first; None where there is one leaf.
fn first_two(dag: &StateDag) -> Option<(Slot, Slot)>
    ensures a { IfSome result (λ two. IsTrue (is_slot dag.now two.0)) }
    ensures b { IfSome result (λ two. IsTrue (is_slot dag.now two.1)) }
    ensures first { FirstTwo dag.now result }
{
    let leaves = dag.leaf_slots();
    if leaves.len() < 2 {
        return None;
    }
    let a = leaves[0];
    let b = leaves[1];
    if dag.id_of(a) < dag.id_of(b) {
        Some((a, b))
    } else {
        Some((b, a))
    }
}

/// Commits a merge of the states of these two slots with these writes, in one step.
fn join<A: StoredSite>(
    core: &mut A,
    actor: u16,
    a: Slot,
    b: Slot,
    writes: WriteSet,
) -> Result<AutoEnd, NoMemory>
    requires a { IsTrue (is_slot (A.kept core.old).table a) }
    requires b { IsTrue (is_slot (A.kept core.old).table b) }
    requires merges { MayJoin (A.stands core.old) (A.kept core.old).table a b writes }
    ensures joined { JoinsAs (A.stands core.old) (A.stands core.new) (A.kept core.old).table actor a b writes result }
    ensures opening { A.opened core.new ≡ A.opened core.old }
{
    let _ = writes.as_slice(); // for the proof alone
    let reply = core.commit_merge(actor, &[a, b], writes)?;
    Ok(end_of(reply))
}

/// How a commit ended, by its reply.
fn end_of(reply: Reply) -> AutoEnd
    requires { IsMergeEnd reply }
    ensures { result ≡ end_of reply }
{
    match reply {
        Reply::Committed { id, .. } => AutoEnd::Merged(id),
        Reply::Refused { refusal } => AutoEnd::Refused(refusal),
        _ => unreachable!(),
    }
}
