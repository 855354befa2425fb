//! A law of auto steps. The function is empty, and its contract is the law.

ghost use Rattle.merge_rules.specs.Laws.{OnlyMergesChange, SingleMeansOneLeaf};

/// An auto step that ends as `Single` found no two leaves, and one that doesn't end as `Merged` leaves the site as it was.
pub fn auto_steps_merge_or_change_nothing()
    ensures single { SingleMeansOneLeaf }
    ensures others { OnlyMergesChange }
{}
