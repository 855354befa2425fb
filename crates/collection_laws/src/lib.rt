//! What collecting leaves alone. The program calls none of it: the function here is empty, and its contract is laws, each with a
//! wrong step that breaks it, and a worked row. `docs/MODEL.md` says them in plain words.
#![tactic(auto)]

ghost use Rattle.plain_site.specs.Step.{step};
ghost use Rattle.plain_site.specs.WrongSteps.{IsBrokenBy, forgets_collected};
ghost use Rattle.collection_laws.specs.Laws.{CollectionIsUnseen, CollectingTakesNoRoom, OnlyCollectedChange, RunsGoTheSameWithout};
ghost use Rattle.collection_laws.specs.Rows.{reads_kept_alone, fills_with_collected, CollectingMakesRoom};

/// Collecting changes nothing that a client can tell, but room. Two sites that differ in nothing but which states they have
/// collected give the same reply to each request but Tidy, Stat and Show, and differ in no more afterwards, unless one of the
/// two has no room. Tidy, Stat and Show tell of what is kept, and change nothing but the collected states. A site may say Full
/// or PathFull where one that collected more goes on; where it is sound, it is never the other way round. So a run goes without
/// Tidy, Stat and Show as it went with them, as long as there is room without them.
pub fn collection_is_unseen()
    ensures unseen { CollectionIsUnseen step }
    ensures takes_no_room { CollectingTakesNoRoom step }
    ensures rest_stays { OnlyCollectedChange step }
    ensures runs { RunsGoTheSameWithout step }
    ensures makes_room { CollectingMakesRoom }
    ensures kept_alone_breaks { IsBrokenBy CollectionIsUnseen reads_kept_alone }
    ensures kept_alone_breaks_runs { IsBrokenBy RunsGoTheSameWithout reads_kept_alone }
    ensures filled_breaks { IsBrokenBy CollectingTakesNoRoom fills_with_collected }
    ensures forgotten_breaks { IsBrokenBy OnlyCollectedChange forgets_collected }
{}
