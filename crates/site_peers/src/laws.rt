//! Laws of a peer's runs, and worked turns. Each function is empty, and its contract is laws or rows.

ghost use Rattle.site_peers.specs.Asking.{RoomIsRead};
ghost use Rattle.site_peers.specs.Runs.{CountsAreCurrent, ExchangesAreWhole, TheMetWereMet, TimeSaysNothing, TurnsAreShort};
ghost use Rattle.site_peers.specs.Connections.{OnlyTheMetAreAsked};
ghost use Rattle.site_peers.specs.Rows.{ExchangeIsMade, ExchangeIsSeen, RefusedIsMade, RefusedIsSeen, FullGoesOnAtOnce, FullOfNoUseWaits, LateAgainIsNotTold, LateIsTold};
ghost use Rattle.site_peers.specs.Rows.{GreetingLateIsTold, LongIntroductionIsTold, NoBatchIsTold, NotMetIsTold, NotMetIsToldBehind, PeerIsMet, WaitsAWhile};

use rest_machine::Settling;

/// Whatever the edge tells, the exchanges of a peer are one after another: each asks the peer once, by the counts that the site told in that turn; and
/// what is delivered until the next one are the items of the answer to it, in order and each once; all of them, and none was refused for want of
/// room, unless something failed. No turn asks more than 64 requests, and the time says nothing until so long has passed as the peer says. Which
/// replies are such refusals is said of the replies, and of their bytes in the same way.
pub fn exchanges_are_whole()
    ensures whole { ExchangesAreWhole }
    ensures short { TurnsAreShort }
    ensures in_time { TimeSaysNothing }
    ensures room { RoomIsRead }
{}

/// Whatever the edge tells, no exchange begins over a connection before the own site met the peer: since the last call it was sent the question for
/// its introduction and nothing else, what it sent was one frame, and the own site's verdict on the body of that was that it may be exchanged with.
/// Else it was sent no more than that question, and the own site was asked no more than for the verdict.
pub fn only_the_met_are_asked()
    ensures { OnlyTheMetAreAsked }
{}

/// The counts that a machine told in a turn are those of the state in which it was asked. So a question never has the counts of an earlier one. A
/// verdict that a peer is met is the machine's own, and counts that are asked in the same turn are those behind it.
pub fn counts_are_current<M: Settling>()
    ensures current { CountsAreCurrent M.plain }
    ensures met { TheMetWereMet M.plain }
{}

/// Worked turns: an exchange with two records and a promise, behind an introduction, and one of which a record is refused for want of room; a peer that isn't met, an introduction that comes too late and
/// one that is too long; an answer that is no batch, one that comes too late, and a full batch.
pub fn turns_are_as_worked()
    ensures made { ExchangeIsMade }
    ensures seen { ExchangeIsSeen }
    ensures refused { RefusedIsMade }
    ensures refused_seen { RefusedIsSeen }
    ensures met { PeerIsMet }
    ensures not_met { NotMetIsTold }
    ensures not_met_behind { NotMetIsToldBehind }
    ensures greeting_late { GreetingLateIsTold }
    ensures too_long { LongIntroductionIsTold }
    ensures no_batch { NoBatchIsTold }
    ensures waits { WaitsAWhile }
    ensures late { LateIsTold }
    ensures late_again { LateAgainIsNotTold }
    ensures full { FullGoesOnAtOnce }
    ensures of_no_use { FullOfNoUseWaits }
{}
