//! What a client can rely on, as laws over whole runs: from an opening site on, whatever any actors ask, other sites' records
//! and promises included, and under any limits. The program calls none of it: each function here is empty, and its contracts
//! are laws, and beside each a wrong step that breaks it in a run of a few lines.
//! `docs/MODEL.md` says each law in plain words.
#![tactic(auto)]

ghost use Rattle.plain_site.specs.Step.{step};
ghost use Rattle.plain_site.specs.EventRuns.{EventsAreRuns};
ghost use Rattle.plain_site.specs.ClientLaws.{ReadsOneSnapshot, ReadsAtItsState, OwnWritesAreRead, MergesShowEachSide, ReadersEndWhereTheyRead};
ghost use Rattle.plain_site.specs.ClientLaws.{SerializableReadsHold, BranchesAreSerial, SnapshotsOverwriteNothingUnseen, HistoryIsTold};
ghost use Rattle.plain_site.specs.ClientLaws.{CommitsAreKept, DeliveriesAreKept, SettledAreKept, CommitsAreShown, OtherKeysAreJoined};
ghost use Rattle.plain_site.specs.ClientLaws.{CommitsJoinWhatTheyRead, ParentReadsTheLastCommit, AncestorReadsTheLastCommit, AnyReadsTheLastCommit};
ghost use Rattle.plain_site.specs.ClientLaws.{SessionsStayUnderCeilings, RefusalsHideNothing};
ghost use Rattle.plain_site.specs.RowsOfClients.{ReadersFork, WritersFork, ReadsAreOld, WantingIsSentAgain, WeakerIsSentAfter, CommitsAreFound};
ghost use Rattle.plain_site.specs.RowsOfClients.{FollowersStayBelow, SidesAreJoined, LinesTell};
ghost use Rattle.plain_site.specs.WrongSteps.{IsBrokenBy, reads_newest, forgets_own_writes, shows_newest_side, ends_at_newest, forgets_reads};
ghost use Rattle.plain_site.specs.WrongSteps.{forgets_constraints, forgets_collected, forgets_deliveries, forgets_waiting, forgets_settled};
ghost use Rattle.plain_site.specs.WrongSteps.{leaves_conflicts, drops_sides, forgets_commits, stays_with_own, forgets_ceilings, ends_refused};

use wire_talk::talk_has_one_spelling;

/// Whatever bytes actors send to a site that opens, and however these are answered, memory's wants included, what they ask and
/// are answered is a run that leads to the same site. So the laws speak of all that actors send.
pub fn events_are_runs()
    ensures { EventsAreRuns }
{
    talk_has_one_spelling();
}

/// Each transaction reads one snapshot, however long it runs and whatever is committed meanwhile: each of its reads shows the
/// value over its read states, which for one state is what is read there. What it wrote itself it is shown as it wrote it, and
/// a merge is shown each of its sides as it is. A transaction whose commit makes no state wrote nothing, and ends at the state
/// that it read.
pub fn transactions_read_one_snapshot()
    ensures snapshot { ReadsOneSnapshot step }
    ensures at_its_state { ReadsAtItsState step }
    ensures own_writes { OwnWritesAreRead step }
    ensures each_side { MergesShowEachSide step }
    ensures ends { ReadersEndWhereTheyRead step }
    ensures newest_breaks { IsBrokenBy ReadsOneSnapshot reads_newest }
    ensures newest_breaks_state { IsBrokenBy ReadsAtItsState reads_newest }
    ensures forgotten_breaks { IsBrokenBy OwnWritesAreRead forgets_own_writes }
    ensures newest_breaks_sides { IsBrokenBy MergesShowEachSide shows_newest_side }
    ensures moved_breaks { IsBrokenBy ReadersEndWhereTheyRead ends_at_newest }
{}

/// Each serializable transaction has read what its place in its branch shows. So up to its first merge a branch is a serial
/// history of its serializable transactions: done one after another from the root on, they read what they did read. Below a
/// merge each of them still read what its parent shows.
pub fn serializable_transactions_read_what_their_place_shows()
    ensures reads { SerializableReadsHold step }
    ensures serial { BranchesAreSerial step }
    ensures forgotten_breaks { IsBrokenBy SerializableReadsHold forgets_reads }
    ensures forgotten_breaks_branches { IsBrokenBy BranchesAreSerial forgets_reads }
{}

/// A transaction under snapshot isolation overwrites nothing that it hasn't seen: between its snapshot and its place nothing
/// writes a key that it wrote.
pub fn snapshots_overwrite_nothing_unseen()
    ensures unseen { SnapshotsOverwriteNothingUnseen step }
    ensures forgotten_breaks { IsBrokenBy SnapshotsOverwriteNothingUnseen forgets_constraints }
{}

/// Nothing committed is lost, whatever comes, and nothing is made up: the site's history, its floors and its waiting room are
/// what requests and replies tell of commits, deliveries, floors and Settle. A commit's state stays known with its parents
/// and its writes, as does a record that another site made, be it delivered or taken from the waiting room, and its writes
/// are shown to all below it until one of these writes the key. It stands below all that its transaction read, a merge just
/// below all its read states; and it shows each key that it didn't write as the one value over its parents.
pub fn nothing_committed_is_lost()
    ensures history { HistoryIsTold step }
    ensures kept { CommitsAreKept step }
    ensures deliveries { DeliveriesAreKept step }
    ensures settled { SettledAreKept step }
    ensures shown { CommitsAreShown step }
    ensures joins { CommitsJoinWhatTheyRead step }
    ensures others { OtherKeysAreJoined step }
    ensures forgotten_breaks_history { IsBrokenBy HistoryIsTold forgets_collected }
    ensures forgotten_breaks { IsBrokenBy CommitsAreKept forgets_collected }
    ensures forgotten_breaks_deliveries { IsBrokenBy DeliveriesAreKept forgets_deliveries }
    ensures forgotten_breaks_waiting { IsBrokenBy HistoryIsTold forgets_waiting }
    ensures forgotten_breaks_settled { IsBrokenBy SettledAreKept forgets_settled }
    ensures conflicts_break { IsBrokenBy CommitsAreShown leaves_conflicts }
    ensures dropped_breaks { IsBrokenBy CommitsJoinWhatTheyRead drops_sides }
    ensures conflicts_break_others { IsBrokenBy OtherKeysAreJoined leaves_conflicts }
{}

/// A session that begins at Parent reads its last commit, at Ancestor that or a state below it, and at Any too exactly where
/// the state that arrived last is at or below it. Wherever it is told to begin, it never reads above its ceiling.
pub fn sessions_read_their_own_commits()
    ensures parent { ParentReadsTheLastCommit step }
    ensures ancestor { AncestorReadsTheLastCommit step }
    ensures any { AnyReadsTheLastCommit step }
    ensures ceilings { SessionsStayUnderCeilings step }
    ensures forgotten_breaks { IsBrokenBy ParentReadsTheLastCommit forgets_commits }
    ensures forgotten_breaks_ancestor { IsBrokenBy AncestorReadsTheLastCommit forgets_commits }
    ensures own_breaks { IsBrokenBy AnyReadsTheLastCommit stays_with_own }
    ensures forgotten_breaks_ceilings { IsBrokenBy SessionsStayUnderCeilings forgets_ceilings }
{}

/// A request that was refused is as if it hadn't been sent. So a refused commit leaves its transaction as it was, and the
/// same commit with weaker constraints is answered as if the refused one had not been sent.
pub fn refusals_hide_nothing()
    ensures as_not_sent { RefusalsHideNothing step }
    ensures ended_breaks { IsBrokenBy RefusalsHideNothing ends_refused }
{}

/// Worked rows: what the step answers where wrong ones break laws, and what lines tell their clients.
pub fn runs_are_told()
    ensures readers { ReadersFork }
    ensures writers { WritersFork }
    ensures old_reads { ReadsAreOld }
    ensures wanting { WantingIsSentAgain }
    ensures weaker { WeakerIsSentAfter }
    ensures own_commits { CommitsAreFound }
    ensures followers { FollowersStayBelow }
    ensures sides { SidesAreJoined }
    ensures told { LinesTell }
{}
