//! Worked rows: what comes in through each door, and what is answered there.

ghost use Rattle.site_doors.specs.Rows.{AllComesInByTheFirstDoor, ClientsComeInByTheSecondDoor, PeersComeInByTheThirdDoor, LivesAreToldAtEachDoor};
ghost use Rattle.site_doors.specs.Rows.{NothingComesInByAFourthDoor, TheOldestCeilingIsTold, SomeAnswersAreSure};
ghost use Rattle.site_doors.specs.RoomRows.{SharesOfSix, CommitsStopAtTheShare, OneSiteCommitsOn};

/// What comes in through each door, and what is answered there; and what a server is told that asks through none.
pub fn doors_are_told()
    ensures all { AllComesInByTheFirstDoor }
    ensures clients { ClientsComeInByTheSecondDoor }
    ensures peers { PeersComeInByTheThirdDoor }
    ensures lives { LivesAreToldAtEachDoor }
    ensures other { NothingComesInByAFourthDoor }
    ensures oldest { TheOldestCeilingIsTold }
    ensures sure { SomeAnswersAreSure }
{}

/// A site of two with room for six refuses its clients' commits at two states and their joins at five, and takes all else; the only
/// site refuses none before it is full.
pub fn commits_stop_at_the_share()
    ensures shares { SharesOfSix }
    ensures stops { CommitsStopAtTheShare }
    ensures one { OneSiteCommitsOn }
{}
