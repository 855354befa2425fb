//! Several sites and the bag of the batches that they gave each other: definitions, and what holds while no site is told what no
//! site said. The program calls none of it: each function here is empty, and its contracts are laws and worked rows.
//! `docs/MODEL.md` says them in plain words.
#![tactic(auto)]

ghost use Rattle.plain_world.specs.Worlds.{World};
ghost use Rattle.plain_world.specs.Steps.{step_at, carry_to};
ghost use Rattle.plain_world.specs.Honest.{IsHonest};
ghost use Rattle.plain_world.specs.Laws.{OpeningIsHonest, StepsKeepHonest, CarriesKeepHonest, CarriesAreTaken, SitesAgree};
ghost use Rattle.plain_world.specs.Laws.{RunsStayHonest, NextOnesAreFit, SettlesAreAnswered};
ghost use Rattle.plain_world.specs.WrongWorlds.{IsBrokenBy, hides_writes, understates, loses_writes};
ghost use Rattle.plain_world.specs.Rows.{NothingIsCarried, FullBagIsTold, CartIsShared};

use wire_talk::talk_has_one_spelling;

/// A world that opens is honest, and each step but a client's delivery and each carry keeps it so: whatever is asked, and whatever
/// is carried again, in any order, or never.
pub fn worlds_stay_honest()
    ensures opening { OpeningIsHonest }
    ensures steps { StepsKeepHonest step_at }
    ensures carries { CarriesKeepHonest carry_to }
    ensures hiding_breaks { IsBrokenBy StepsKeepHonest hides_writes }
    ensures understating_breaks { IsBrokenBy StepsKeepHonest understates }
    ensures losing_breaks { IsBrokenBy CarriesKeepHonest loses_writes }
{}

/// So an honest world stays honest whatever bodies it is asked, as long as none of them is a client's delivery, and however they
/// are answered, memory's wants included.
pub fn runs_stay_honest()
    ensures { RunsStayHonest }
{
    talk_has_one_spelling();
}

/// An honest item is never refused for what it says: it is applied, or known, or early, or there is no room for it.
pub fn honest_items_are_taken()
    ensures { CarriesAreTaken carry_to }
{}

/// Honest sites agree. What one of them may collect is known to all; one id names one record; those with equal counts know the
/// same states; and whatever two of them know reads the same at both, in whatever order it came.
pub fn honest_sites_agree()
    ensures { (world : World) → IsHonest world → SitesAgree world }
{}

/// A record that came early is fit once it is next and its parents are there, and Settle is refused for want of room alone.
pub fn early_records_settle()
    ensures fit { (world : World) → IsHonest world → NextOnesAreFit world }
    ensures settles { (world : World) → SettlesAreAnswered world }
{}

/// Worked rows of two and three sites.
pub fn worlds_answer_as_told()
    ensures nothing { NothingIsCarried }
    ensures full_bag { FullBagIsTold }
    ensures cart { CartIsShared }
{}
