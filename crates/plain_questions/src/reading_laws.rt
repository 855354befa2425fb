//! The laws of what is told of kept states.

ghost use Rattle.plain_questions.specs.Answer.{answer};
ghost use Rattle.plain_questions.specs.PageLaws.{IsBrokenBy, KeysAreToldOnce, PagesTellTheKeys};
ghost use Rattle.plain_questions.specs.ReadLaws.{AtIsReadThere, BaseIsReadAtForkPoints, CollectingChangesNoRead, ForkPointsAreKept};
ghost use Rattle.plain_questions.specs.ReadLaws.{MergesFindTheirBase, RequestsChangeNoRead};
ghost use Rattle.plain_questions.specs.WrongAnswers.{begins_at_key, lists_deleted, names_sides, reads_a_side, reads_kept_alone, reads_last_arrived};

/// Pages that are asked for one behind another, of keys or with values, tell just the keys that have a value at the state, in
/// ascending order, each once, wherever the pages end.
pub fn pages_tell_the_keys()
    ensures pages { PagesTellTheKeys answer }
    ensures once { KeysAreToldOnce }
    ensures inclusive_breaks { IsBrokenBy PagesTellTheKeys begins_at_key }
    ensures deleted_breaks { IsBrokenBy PagesTellTheKeys lists_deleted }
{}

/// At a state at which an open session may begin, At tells what its transaction would be answered; and as long as a state is
/// kept, what is read there is told as before, whatever is asked of the site, and whatever else is collected. So pages that are
/// told one by one while others commit are pages of one site.
pub fn at_is_read_there()
    ensures there { AtIsReadThere answer }
    ensures collecting { CollectingChangesNoRead answer }
    ensures requests { RequestsChangeNoRead answer }
    ensures last_arrived_breaks { IsBrokenBy AtIsReadThere reads_last_arrived }
    ensures last_arrived_breaks_stay { IsBrokenBy RequestsChangeNoRead reads_last_arrived }
    ensures kept_alone_breaks { IsBrokenBy CollectingChangesNoRead reads_kept_alone }
{}

/// Where kept states parted is kept too. So Base is told for all kept states that parted at no more than 8: at each of their
/// fork points what At tells there; and for an open merge these are the fork points that its session is shown.
pub fn base_is_read_at_fork_points()
    ensures kept { ForkPointsAreKept }
    ensures reads { BaseIsReadAtForkPoints answer }
    ensures merges { MergesFindTheirBase answer }
    ensures side_breaks { IsBrokenBy BaseIsReadAtForkPoints reads_a_side }
    ensures sides_break { IsBrokenBy MergesFindTheirBase names_sides }
{}
