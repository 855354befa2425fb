//! The order of states, latest writers and conflict keys: what holds of every history.

ghost use Rattle.std.specs.Prelude.{List};
ghost use Rattle.tardis_base.specs.declared.ids.StateId.{StateId};
ghost use Rattle.tardis_base.specs.declared.records.Record.{Record};
ghost use Rattle.plain_dag.specs.Dag.{IsNext, IsDag};
ghost use Rattle.plain_dag.specs.Laws.{AboveIsReflexive, AboveIsTransitive, AboveIsAntisymmetric, AncestorsArriveEarlier, AncestorsAreKnown};
ghost use Rattle.plain_dag.specs.Laws.{ArrivalsDiffer, ApartMeansIncomparable, AboveGoesAlongEdges, AboveIsTheWay, OldStatesStay, OldReadsStay};
ghost use Rattle.plain_dag.specs.Laws.{NewStateIsBelowParents, WritersHaveOneLatest, NextWritesConflicts, ListsConflictKeys};

/// "At or above" is an order of the states, and arrival goes with it: what is at or above a known state is known, and
/// arrived earlier unless the two are one. Known states that arrived together are one. States are apart where no two of
/// them are comparable, whatever their places.
pub fn above_is_an_order()
    ensures reflexive { (rs : List Record) → AboveIsReflexive rs }
    ensures transitive { (rs : List Record) → IsDag rs → AboveIsTransitive rs }
    ensures antisymmetric { (rs : List Record) → IsDag rs → AboveIsAntisymmetric rs }
    ensures arrival { (rs : List Record) → IsDag rs → AncestorsArriveEarlier rs }
    ensures known { (rs : List Record) → IsDag rs → AncestorsAreKnown rs }
    ensures one_by_one { (rs : List Record) → ArrivalsDiffer rs }
    ensures apart { (rs : List Record) → ApartMeansIncomparable rs }
{}

/// The test of "at or above" is what it stands for: there is a way along edges from the one state to the other.
pub fn above_is_the_way()
    ensures edges { (rs : List Record) → IsDag rs → AboveGoesAlongEdges rs }
    ensures way { (rs : List Record) → IsDag rs → AboveIsTheWay rs }
{}

/// A record that arrives changes nothing between old states, and no read at one of them. Its state is below what its
/// parents are at or below, and above no old state.
pub fn a_new_record_changes_nothing_old()
    ensures order { (rs : List Record) (r : Record) → IsDag rs → IsNext rs r → OldStatesStay rs r }
    ensures reads { (rs : List Record) (r : Record) → IsDag rs → IsNext rs r → OldReadsStay rs r }
    ensures place { (rs : List Record) (r : Record) → IsDag rs → IsNext rs r → NewStateIsBelowParents rs r }
{}

/// At every state, each key that is written at or above it has exactly one latest writer: the one that all its writers
/// there are at or above, which also arrived last of them. So a read has one answer.
pub fn one_latest_writer()
    ensures one { (rs : List Record) → IsDag rs → WritersHaveOneLatest rs }
{}

/// A state whose parents are all at or above another state writes each conflict key of the two.
pub fn next_state_writes_conflicts()
    ensures written { (rs : List Record) → IsDag rs → NextWritesConflicts rs }
{}

/// The list of conflict keys of any states ascends, and has each of their conflict keys and no other.
pub fn conflict_keys_are_listed()
    ensures listed { (rs : List Record) (xs : List StateId) → ListsConflictKeys rs xs }
{}
