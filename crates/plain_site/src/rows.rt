//! Worked rows: what the plain site replies to these requests, line by line.

ghost use Rattle.plain_site.specs.RowsOfCommits.{WriteSkewForks, WriteSkewPassesUnderSnapshots, NoBranchRefusesTheFork, OldReadForks};
ghost use Rattle.plain_site.specs.RowsOfCommits.{AnyBeginsAtTheFork, CommitRipplesDown, BranchesAreCounted, BeginsFollowTheLastCommit, ReadingMakesNoState};
ghost use Rattle.plain_site.specs.RowsOfMerges.{MergeJoinsBranches, TwoMergesConflict, MergesNeedStatesApart, NineLeavesAreTooMany};
ghost use Rattle.plain_site.specs.RowsOfFloors.{CeilingsHoldReadsAndFloors, FloorsHoldTheSite, CollectionKeepsReads};
ghost use Rattle.plain_site.specs.RowsOfCollection.{ForkThatGrewTogetherIsCollected, ForkOfThreeStays};
ghost use Rattle.plain_site.specs.RowsOfExchange.{RecordsComeInOrder, ConsentsCloseStates, LyingPeersAreRefused, SitesPastTheLimitAreBad};
ghost use Rattle.plain_site.specs.RowsOfWaiting.{EarlyRecordIsSettled, NothingIsSettled, EachWaitsOnce, FirstFitOneIsTaken, KnownOneStays};
ghost use Rattle.plain_site.specs.RowsOfWaiting.{FitOneWaitsForRoom, FullRoomLosesTheFirst};
ghost use Rattle.plain_site.specs.RowsOfLimits.{WritesAreLimited, ReadsAreLimited, FullSiteRefuses, SecondSessionIsRefused, LongPathIsRefused};
ghost use Rattle.plain_site.specs.RowsOfBytes.{WriteIsReadBack, NoneIsOpen, OtherBytesAreMalformed, LongestKeyAndValueArePut};
ghost use Rattle.plain_site.specs.RowsOfBytes.{LongerOnesAreMalformed};
ghost use Rattle.plain_site.specs.RowsOfChoices.{NoBranchIsNamedFirst, OwnWritesAreNotRead, MergesBringNews, ValueIsTheLowestWriters};
ghost use Rattle.plain_site.specs.RowsOfChoices.{MergeTriesOneThingAtATime, CeilingStaysOnItsBranch, TidyTakesTheLastArrived, FloorIsKept};
ghost use Rattle.plain_site.specs.RowsOfChoices.{CollectsMergedBranches, LongPathOfAKeptStateIsNamed, OwnRecordIsKnown, ClosedParentIsNamedFirst};
ghost use Rattle.plain_site.specs.RowsOfLandings.{SnapshotsForkOnWrites, SerializableForksOnReads, BothForkOnEither, WithoutConstraintsNothingForks};
ghost use Rattle.plain_site.specs.RowsOfLandings.{FirstPassingChildIsTaken, OldWritesAreNoNews, ReadersAlwaysEnd, AncestorKeepsToItsBranch};
ghost use Rattle.plain_site.specs.RowsOfLandings.{AbortedWritesAreGone};
ghost use Rattle.plain_site.specs.RowsOfOperations.{DeletionsAreRead, ClosedSessionsAreGone, OpenSessionIsToldFirst, ConflictsComeInPages};
ghost use Rattle.plain_site.specs.RowsOfOperations.{EightStatesAreMerged, PagesHaveTheFirst, SingleTransactionsShowNoBranches, LeavesAreShown};
ghost use Rattle.plain_site.specs.RowsOfOperations.{UnknownStatesAreToldFirst, AutomaticFloorStaysAboveCeilings, FloorIsToldBeforeSessions};
ghost use Rattle.plain_site.specs.RowsOfOperations.{NumbersRunOut, RoomIsLookedAtBetween, BatchesHaveTheNews, BatchesLeaveOutWhatAllHave};
ghost use Rattle.plain_site.specs.RowsOfOperations.{OneFloorClosesNothing, BatchesAreFilled, BatchesStopWhereTheyAreFull, ConsentsWaitForBoth};
ghost use Rattle.plain_site.specs.RowsOfWideMerges.{WideBranchesAreMade, WideMergeIsRefused, WideBranchesAreJoinedInSteps};

/// Where transactions begin, and where they commit.
pub fn commits_answer_as_told()
    ensures write_skew { WriteSkewForks }
    ensures write_skew_under_snapshots { WriteSkewPassesUnderSnapshots }
    ensures no_branch { NoBranchRefusesTheFork }
    ensures old_read { OldReadForks }
    ensures any_at_the_fork { AnyBeginsAtTheFork }
    ensures ripple { CommitRipplesDown }
    ensures branches { BranchesAreCounted }
    ensures begins { BeginsFollowTheLastCommit }
    ensures no_writes { ReadingMakesNoState }
{}

/// Merges of branches.
pub fn merges_answer_as_told()
    ensures joined { MergeJoinsBranches }
    ensures two_merges { TwoMergesConflict }
    ensures apart { MergesNeedStatesApart }
    ensures nine_leaves { NineLeavesAreTooMany }
{}

/// Ceilings, floors and collection.
pub fn floors_answer_as_told()
    ensures ceilings { CeilingsHoldReadsAndFloors }
    ensures floors { FloorsHoldTheSite }
    ensures collection { CollectionKeepsReads }
    ensures grown_together { ForkThatGrewTogetherIsCollected }
    ensures two_of_three { ForkOfThreeStays }
{}

/// What other sites deliver.
pub fn exchange_answers_as_told()
    ensures records { RecordsComeInOrder }
    ensures consents { ConsentsCloseStates }
    ensures lies { LyingPeersAreRefused }
    ensures bad_sites { SitesPastTheLimitAreBad }
{}

/// Records that came before others that they need.
pub fn waiting_answers_as_told()
    ensures settled { EarlyRecordIsSettled }
    ensures nothing { NothingIsSettled }
    ensures once { EachWaitsOnce }
    ensures first_fit { FirstFitOneIsTaken }
    ensures known { KnownOneStays }
    ensures growth { FitOneWaitsForRoom }
    ensures full_room { FullRoomLosesTheFirst }
{}

/// Limits of transactions and of the site.
pub fn limits_answer_as_told()
    ensures writes { WritesAreLimited }
    ensures reads { ReadsAreLimited }
    ensures full { FullSiteRefuses }
    ensures sessions { SecondSessionIsRefused }
    ensures paths { LongPathIsRefused }
{}

/// Requests and replies in bytes.
pub fn bytes_answer_as_told()
    ensures read_back { WriteIsReadBack }
    ensures not_open { NoneIsOpen }
    ensures malformed { OtherBytesAreMalformed }
    ensures longest { LongestKeyAndValueArePut }
    ensures longer { LongerOnesAreMalformed }
{}

/// What the other rows leave open.
pub fn choices_are_made()
    ensures no_branch_first { NoBranchIsNamedFirst }
    ensures own_writes { OwnWritesAreNotRead }
    ensures news { MergesBringNews }
    ensures lowest { ValueIsTheLowestWriters }
    ensures merge_refusals { MergeTriesOneThingAtATime }
    ensures apart_ceiling { CeilingStaysOnItsBranch }
    ensures tidy_order { TidyTakesTheLastArrived }
    ensures kept_floor { FloorIsKept }
    ensures merged_branches { CollectsMergedBranches }
    ensures kept_paths { LongPathOfAKeptStateIsNamed }
    ensures own_record { OwnRecordIsKnown }
    ensures closed_parent_first { ClosedParentIsNamedFirst }
{}

/// Where transactions begin and commit among branches.
pub fn landings_answer_as_told()
    ensures si { SnapshotsForkOnWrites }
    ensures ser { SerializableForksOnReads }
    ensures both { BothForkOnEither }
    ensures neither { WithoutConstraintsNothingForks }
    ensures first_passing { FirstPassingChildIsTaken }
    ensures old_writes { OldWritesAreNoNews }
    ensures readers { ReadersAlwaysEnd }
    ensures ancestor { AncestorKeepsToItsBranch }
    ensures aborted { AbortedWritesAreGone }
{}

/// Each operation.
pub fn operations_answer_as_told()
    ensures deletions { DeletionsAreRead }
    ensures closed_sessions { ClosedSessionsAreGone }
    ensures open_session { OpenSessionIsToldFirst }
    ensures conflicts { ConflictsComeInPages }
    ensures eight_states { EightStatesAreMerged }
    ensures pages { PagesHaveTheFirst }
    ensures single { SingleTransactionsShowNoBranches }
    ensures leaves { LeavesAreShown }
    ensures unknown { UnknownStatesAreToldFirst }
    ensures automatic_floor { AutomaticFloorStaysAboveCeilings }
    ensures floor_first { FloorIsToldBeforeSessions }
    ensures numbers { NumbersRunOut }
    ensures room { RoomIsLookedAtBetween }
    ensures news { BatchesHaveTheNews }
    ensures what_all_have { BatchesLeaveOutWhatAllHave }
    ensures one_floor { OneFloorClosesNothing }
    ensures filled_batch { BatchesAreFilled }
    ensures full_batch { BatchesStopWhereTheyAreFull }
    ensures early_consents { ConsentsWaitForBoth }
{}

/// Branches with more conflict keys than one transaction may write.
pub fn wide_merges_answer_as_told()
    ensures made { WideBranchesAreMade }
    ensures refused { WideMergeIsRefused }
    ensures in_steps { WideBranchesAreJoinedInSteps }
{}
