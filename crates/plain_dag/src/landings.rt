//! Where transactions begin and land, what may be collected, and what fork paths tell: what holds of every history.

ghost use Rattle.std.specs.Prelude.{◌≡◌, ℕ, List, [], ◌∷◌, Some, IsTrue, IsFalse};
ghost use Rattle.tardis_base.specs.declared.ids.StateId.{StateId};
ghost use Rattle.tardis_base.specs.declared.records.Record.{Record};
ghost use Rattle.tardis_base.specs.declared.requests.EndFlags.{EndFlags};
ghost use Rattle.plain_dag.specs.States.{is_known};
ghost use Rattle.plain_dag.specs.Floors.{Floor};
ghost use Rattle.plain_dag.specs.Collection.{shared_stand_in, is_collectable};
ghost use Rattle.tardis_base.specs.Ids.{is_among};
ghost use Rattle.plain_dag.specs.Dag.{IsDag};
ghost use Rattle.plain_dag.specs.Laws.{LeavesAreAdmitted, BeginsAtLeaves, LandsByFirstChildren, LandsBelow, LandsWithoutNews, LandsWithSameReads};
ghost use Rattle.plain_dag.specs.Laws.{IsTrueCommit, AreCollected, CollectedAreAboveCeilings, StaysKept, CollectedGetNoChild, StandInsAreShared};
ghost use Rattle.plain_dag.specs.Laws.{CollectedShareStandIns, StandsInWell, LatestWritersStandInThere, ForkPathsTell, HandsOver, TidiesInOneWalk};

/// A leaf may be read under every ceiling, and a transaction that may begin anywhere, or anywhere below its session's
/// last commit, begins at a leaf. So no ceiling keeps such a transaction from beginning.
pub fn leaves_are_admitted()
    ensures admitted { (rs : List Record) → IsDag rs → LeavesAreAdmitted rs }
    ensures begins { (rs : List Record) → IsDag rs → BeginsAtLeaves rs }
{}

/// From a known state a transaction goes to the first child that brings no news of a guarded key, and on from there; where
/// no child is such it stays. It lands at a known state, and its read state is at or above that one.
pub fn landings_go_by_first_children()
    ensures steps { (rs : List Record) (keys : List (List ℕ)) (s : StateId) → IsDag rs → IsTrue (is_known rs s) → LandsByFirstChildren rs keys s }
    ensures below { (rs : List Record) (keys : List (List ℕ)) (s : StateId) → IsDag rs → IsTrue (is_known rs s) → LandsBelow rs keys s }
{}

/// Of the states at or above the landing only those at or above the read state wrote a guarded key. So each guarded key
/// reads the same at both.
pub fn landings_have_no_news()
    ensures news { (rs : List Record) (keys : List (List ℕ)) (s : StateId) → IsDag rs → LandsWithoutNews rs keys s }
    ensures reads { (rs : List Record) (keys : List (List ℕ)) (s : StateId) → IsDag rs → IsTrue (is_known rs s) → LandsWithSameReads rs keys s }
{}

/// What the flags promise a transaction: a serializable one finds every key that it read unchanged where it lands, and
/// under snapshot isolation nothing in between wrote a key that it wrote.
pub fn commits_are_true()
    ensures flags { (rs : List Record) (flags : EndFlags) (reads written : List (List ℕ)) (s : StateId) → IsDag rs → IsTrue (is_known rs s)
        → IsTrueCommit rs flags reads written s }
{}

/// A rightly collected state is a proper ancestor of each ceiling under a floor. So whatever a transaction may still need
/// is kept: read states, ceilings, floors, landings and fork points. And a record whose parent is admitted under such a
/// ceiling, or isn't closed, is no child of a collected state.
pub fn collected_states_are_out_of_the_way()
    ensures above_ceilings { (rs : List Record) (floors : List Floor) (ks : List StateId) → IsDag rs → AreCollected rs floors ks
        → CollectedAreAboveCeilings rs floors ks }
    ensures kept { (rs : List Record) (floors : List Floor) (ks : List StateId) → IsDag rs → AreCollected rs floors ks → StaysKept rs floors ks }
    ensures childless { (rs : List Record) (floors : List Floor) (ks : List StateId) → IsDag rs → AreCollected rs floors ks → CollectedGetNoChild rs floors ks }
{}

/// A rightly collected state has the stand-in of each of its children. Where each child of a collected state has that
/// state's stand-in, all stand-ins are kept, a kept state is its own, and a state is at or above a kept one exactly where
/// its stand-in is. Where some writer of a key stands in, so does the latest writer of the key there: one version a state
/// serves all that it stands for.
pub fn stand_ins_stand_in()
    ensures shared { (rs : List Record) (floors : List Floor) (ks : List StateId) → IsDag rs → CollectedShareStandIns rs floors ks }
    ensures well { (rs : List Record) (ks : List StateId) → IsDag rs → StandInsAreShared rs ks → StandsInWell rs ks }
    ensures latest { (rs : List Record) (ks : List StateId) → IsDag rs → StandInsAreShared rs ks → LatestWritersStandInThere rs ks }
{}

/// Of two kept states the one is at or above the other exactly where it arrived no later and each branch of a kept fork
/// that leads to it leads to the other. This holds where children share the stand-in of a collected parent, so of
/// rightly collected states, and of a history from which nothing was collected.
pub fn fork_paths_tell_ancestry()
    ensures shared { (rs : List Record) (ks : List StateId) → IsDag rs → StandInsAreShared rs ks → ForkPathsTell rs ks }
    ensures collected { (rs : List Record) (floors : List Floor) (ks : List StateId) → IsDag rs → AreCollected rs floors ks → ForkPathsTell rs ks }
    ensures uncollected { (rs : List Record) → IsDag rs → ForkPathsTell rs [] }
{}

/// Once a state is collected, the stand-in that its children share stands in for all that it stood in for, and nothing else
/// changes of stand-ins; the state leaves the kept states, and its branches all fork paths. What is rightly collected stays
/// so when a collectable state joins.
pub fn a_collected_state_hands_over()
    ensures hands_over { (rs : List Record) (ks : List StateId) (x s : StateId) → IsDag rs → IsFalse (is_among x ks) → shared_stand_in rs ks x ≡ Some s
        → HandsOver rs ks x s }
    ensures collected { (rs : List Record) (floors : List Floor) (ks : List StateId) (x : StateId) → IsDag rs → AreCollected rs floors ks
        → IsTrue (is_collectable rs floors ks x) → AreCollected rs floors (x ∷ ks) }
{}

/// Collection goes once through the states, from the newest to the oldest, and each that is collectable when it is reached
/// joins: a state that joins makes none collectable that didn't arrive before it. So a walk over the kept states alone, that
/// stops after so many, collects the same states in the same order.
pub fn tidying_is_one_walk()
    ensures walk { (rs : List Record) (floors : List Floor) (ks : List StateId) → IsDag rs → TidiesInOneWalk rs floors ks }
{}
