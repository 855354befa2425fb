//! Two leaves are joined by rules.

ghost use Rattle.std.specs.Prelude.{◌≡◌, ◌∷◌, ◌&&◌, not, false, [], IsTrue, IfOk, IfSome, OnOk, OnErr};
ghost use Rattle.tardis_base.specs.Ids.{root, same_id};
ghost use Rattle.tardis_base.specs.Valid.{is_id};
ghost use Rattle.plain_site.specs.Site.{Site};
ghost use Rattle.session_core.specs.Machine.{SiteStands, opened_with};
ghost use Rattle.join_rules.specs.declared.join_codes.TheConstants.{JOIN};
ghost use Rattle.join_rules.specs.Joins.{is_join, asked_to_join, with_joined, added, unjoined, joined_by, join};
ghost use Rattle.join_rules.specs.Joints.{is_for_others};
ghost use Rattle.join_rules.specs.Searches.{MayBeJoined};
ghost use Rattle.rest_site.specs.Joinings.{Joins, CodeOf, IsNextId};

use join_rules::join_codes::{FOR_OTHERS, JOIN, JOINED, LEFT, NO_RULES, ONE_LEAF};
use join_rules::{Joint, first_joint, is_for_others, rules_in};
use rule_list::{RuleList, RulesFault};
use session_core::SiteCore;
use std::alloc::Global;
use tardis_base::{NoMemory, Record, ReplyBuf, StateId, StateList};

/// Answers a request to join leaves.
pub(crate) fn join(
    core: &mut SiteCore,
    alloc: Global,
    request: &[u8],
    out: &mut ReplyBuf,
) -> Result<(), NoMemory>
    requires asks { IsTrue (is_join request.now) }
    ensures reply { OnOk result ((s : Site) → SiteStands core.old s → out.new ≡ JOIN ∷ (asked_to_join s request.now).0 ∷ []) }
    ensures step { OnOk result ((s : Site) → SiteStands core.old s → SiteStands core.new (with_joined (asked_to_join s request.now).1 s)) }
    ensures same { OnErr result ((s : Site) → SiteStands core.old s → SiteStands core.new s) }
    ensures empty { OnErr result (out.new ≡ []) }
    ensures opening { opened_with core.new ≡ opened_with core.old }
{
    out.clear();
    let Some((_, fields)) = request.split_first() else {
        unreachable!()
    };
    match join_by(core, alloc, fields) {
        Ok(end) => {
            out.push_byte(JOIN);
            out.push_byte(end);
            Ok(())
        },
        Err(NoMemory) => Err(NoMemory),
    }
}

/// Joins two leaves by the patience and the rules in these fields, and tells what came of it.
fn join_by(core: &mut SiteCore, alloc: Global, fields: &[u8]) -> Result<u8, NoMemory>
    ensures joins { Joins core.old core.new (λ s. join s fields.now) result }
    ensures opening { opened_with core.new ≡ opened_with core.old }
{
    match fields.split_first() {
        Some((patience, text)) => join_by_text(core, alloc, *patience, text),
        None => Ok(NO_RULES),
    }
}

/// Joins two leaves with this patience by the rules in this text.
fn join_by_text(
    core: &mut SiteCore,
    alloc: Global,
    patience: u8,
    text: &[u8],
) -> Result<u8, NoMemory>
    ensures joins { Joins core.old core.new (λ s. join s (patience ∷ text.now)) result }
    ensures opening { opened_with core.new ≡ opened_with core.old }
{
    match rules_in(alloc, text) {
        Ok(rules) => join_leaves(core, alloc, patience, &rules),
        Err(RulesFault::Form) => Ok(NO_RULES),
        Err(RulesFault::NoMemory) => Err(NoMemory),
    }
}

/// Joins the first two leaves that the rules settle and that aren't left to others.
fn join_leaves(
    core: &mut SiteCore,
    alloc: Global,
    patience: u8,
    rules: &RuleList,
) -> Result<u8, NoMemory>
    ensures joins { Joins core.old core.new (λ s. joined_by s patience rules.now) result }
    ensures opening { opened_with core.new ≡ opened_with core.old }
{
    let own = core.book().own_site();
    match first_joint(alloc, core.store(), rules, own, patience) {
        Ok(Some(joint)) => take_joint(core, alloc, joint),
        Ok(None) => unjoined(core, alloc, patience, rules),
        Err(NoMemory) => Err(NoMemory),
    }
}

/// What is told where this site joins no two leaves.
fn unjoined(core: &SiteCore, alloc: Global, patience: u8, rules: &RuleList) -> Result<u8, NoMemory>
    ensures { (s : Site) → SiteStands core.now s → IfOk result (λ code. code ≡ unjoined s (is_for_others rules.now s.own patience s.dag)) }
{
    let own = core.book().own_site();
    match is_for_others(alloc, core.store(), rules, own, patience) {
        Ok(true) => Ok(FOR_OTHERS),
        Ok(false) => Ok(apart(core)),
        Err(NoMemory) => Err(NoMemory),
    }
}

/// What is told where nobody is to join two.
fn apart(core: &SiteCore) -> u8
    ensures { (s : Site) → SiteStands core.now s → result ≡ unjoined s false }
{
    if core.store().dag().leaf_slots().len() > 1 {
        LEFT
    } else {
        ONE_LEAF
    }
}

/// Takes the site's next record, which joins two leaves.
fn take_joint(core: &mut SiteCore, alloc: Global, joint: Joint) -> Result<u8, NoMemory>
    requires may { MayBeJoined joint }
    ensures joins { Joins core.old core.new (λ s. added s joint) result }
    ensures opening { opened_with core.new ≡ opened_with core.old }
{
    let Some(id) = next_id(core) else {
        return Ok(LEFT);
    };
    let Joint {
        first,
        second,
        writes,
    } = joint;
    match both(alloc, first, second) {
        Ok(parents) => code_of(core.take_record(Record {
            id,
            parents,
            writes,
        })),
        Err(NoMemory) => Err(NoMemory),
    }
}

/// What is told of a record that was to be taken.
fn code_of(taken: Result<bool, NoMemory>) -> Result<u8, NoMemory>
    ensures { CodeOf taken result }
{
    match taken {
        Ok(true) => Ok(JOINED),
        Ok(false) => Ok(LEFT),
        Err(NoMemory) => Err(NoMemory),
    }
}

/// The site's next id; None where it made 4,294,967,295 states.
fn next_id(core: &SiteCore) -> Option<StateId>
    ensures next { (s : Site) → SiteStands core.now s → IsNextId s result }
    ensures valid { IfSome result (λ id. IsTrue (is_id id && not (same_id id root))) }
{
    let own = core.book().own_site();
    let count = core.store().dag().count(own);
    if count == u32::MAX {
        return None;
    }
    Some(StateId {
        site: own,
        sequence: count + 1,
    })
}

/// A list of these two.
fn both(alloc: Global, first: StateId, second: StateId) -> Result<StateList, NoMemory>
    ensures { IfOk result (λ states. states ≡ first ∷ second ∷ []) }
{
    let mut states = StateList::new(alloc);
    states.push(first)?;
    states.push(second)?;
    Ok(states)
}
