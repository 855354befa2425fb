//! Worked rows: what the plain site tells, question by question.

ghost use Rattle.plain_questions.specs.RowsOfReads.{BranchesPart, StatesAreRead, BaseIsReadWhereTheyParted, RecordsAreTold};
ghost use Rattle.plain_questions.specs.RowsOfReads.{TwoForkPointsAreRead, NineForkPointsAreTooMany, CollectedStatesAreRefused};
ghost use Rattle.plain_questions.specs.RowsOfPages.{KeysAreListed, EntriesAreListed, PagesHave256Keys, PagesHave65536Bytes};
ghost use Rattle.plain_questions.specs.RowsOfSites.{LaggingSessionHoldsTheFloor, ClosedSessionHoldsNothing, BranchesHoldTheFloor};
ghost use Rattle.plain_questions.specs.RowsOfSites.{SitesAreTold, SixteenSitesAreTold};
ghost use Rattle.plain_questions.specs.RowsOfBytes.{AnswersBytes, OtherBytesAreMalformed};

/// What is read at a state, and where states parted.
pub fn reads_are_told()
    ensures parted { BranchesPart }
    ensures states { StatesAreRead }
    ensures bases { BaseIsReadWhereTheyParted }
    ensures records { RecordsAreTold }
    ensures two_fork_points { TwoForkPointsAreRead }
    ensures nine_fork_points { NineForkPointsAreTooMany }
    ensures collected { CollectedStatesAreRefused }
{}

/// The keys of a state, page by page.
pub fn pages_are_told()
    ensures keys { KeysAreListed }
    ensures entries { EntriesAreListed }
    ensures keys_of_a_page { PagesHave256Keys }
    ensures bytes_of_a_page { PagesHave65536Bytes }
{}

/// Sessions, and the whole site.
pub fn sites_are_told()
    ensures lagging { LaggingSessionHoldsTheFloor }
    ensures closed { ClosedSessionHoldsNothing }
    ensures branches { BranchesHoldTheFloor }
    ensures sites { SitesAreTold }
    ensures sixteen { SixteenSitesAreTold }
{}

/// Questions and what is told, in bytes.
pub fn bytes_are_told()
    ensures told { AnswersBytes }
    ensures malformed { OtherBytesAreMalformed }
{}
