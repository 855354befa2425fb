//! The site as a machine, and as one that starts again from what lasted of its requests.

ghost use Rattle.std.specs.Prelude.{◌≡◌, ◌+◌, ◌≤◌, ◌++◌, true, [], vec_len, vec_capacity, IsOk, OnOk, OnErr};
ghost use Rattle.rest_machine.specs.Rests.{most_lasting};
ghost use Rattle.site_lives.specs.Acquainted.{Acquainted};
ghost use Rattle.rest_site.specs.Stands.{AcquaintedStands, opened_alone};
ghost use Rattle.rest_site.specs.Ruled.{ruled_machine, ruled_bytes};

use crate::RestSite;
use crate::joins::join;
use crate::oldest::{asks_oldest, tell_oldest};
use crate::puts::put_life;
use crate::serving::{serve, serve_join};
use crate::takes::take_all;
use join_rules::is_join;
use rest_machine::Resting;
use site_lives::is_of_lives;
use tardis_base::{Machine, NoMemory, ReplyBuf};

impl Machine for RestSite {
    ghost use Rattle.site_lives.specs.Acquainted.{Acquainted};
    ghost use Rattle.rest_site.specs.Stands.{AcquaintedStands, opened_alone};
    ghost use Rattle.rest_site.specs.Ruled.{ruled_machine};

    ghost Plain = { Acquainted };

    ghost plain = { ruled_machine };

    ghost stands = { AcquaintedStands };

    ghost opening = { opened_alone };

    fn act(&mut self, actor: u16, request: &[u8], out: &mut ReplyBuf) -> Result<(), NoMemory> {
        if is_of_lives(request) {
            let _ = self.meet(request, out);
            Ok(())
        } else if asks_oldest(request) {
            tell_oldest(&self.core, out);
            Ok(())
        } else if is_join(request) {
            join(&mut self.core, self.alloc, request, out)
        } else {
            self.core.act(actor, request, out)
        }
    }
}

impl RestSite {
    /// Answers the request, and puts what lasts of it behind the log, but doesn't note it.
    fn answer_lasting(
        &mut self,
        actor: u16,
        request: &[u8],
        out: &mut ReplyBuf,
        log: &mut Vec<u8>,
    ) -> Result<(), NoMemory>
        requires room { vec_len log.old + most_lasting ≤ vec_capacity log.old }
        ensures reply { OnOk result ((a : Acquainted) → AcquaintedStands self.old a → out.new ≡ ruled_machine.reply a (actor, request.now)) }
        ensures step { OnOk result ((a : Acquainted) → AcquaintedStands self.old a → AcquaintedStands self.new (ruled_machine.step a (actor, request.now))) }
        ensures same { OnErr result ((a : Acquainted) → AcquaintedStands self.old a → AcquaintedStands self.new a) }
        ensures empty { OnErr result (out.new ≡ []) }
        ensures sure { ruled_machine.is_sure (actor, request.now) ≡ true → IsOk result }
        ensures lasts { OnOk result ((a : Acquainted) → AcquaintedStands self.old a → log.new.items ≡ log.old.items ++ ruled_bytes a (actor, request.now)) }
        ensures nothing { OnErr result (log.new.items ≡ log.old.items) }
        ensures few { vec_len log.new ≤ vec_len log.old + most_lasting }
        ensures capacity { vec_capacity log.old ≤ vec_capacity log.new }
        ensures opening { opened_alone self.new ≡ opened_alone self.old }
    {
        if is_of_lives(request) {
            let new = self.meet(request, out);
            put_life(&new, log);
            Ok(())
        } else if asks_oldest(request) {
            tell_oldest(&self.core, out);
            Ok(())
        } else if is_join(request) {
            serve_join(&mut self.core, self.alloc, request, out, log)
        } else {
            serve(&mut self.core, actor, request, out, log)
        }
    }
}

impl Resting for RestSite {
    ghost use Rattle.site_lives.specs.Acquainted.{Acquainted};
    ghost use Rattle.rest_site.specs.Stands.{AcquaintedStands, opened_alone};
    ghost use Rattle.rest_site.specs.Ruled.{ruled_machine, ruled_bytes};
    ghost use Rattle.site_lives.specs.Bytes.{TakesBack};
    ghost use Rattle.site_lives.specs.Things.{all_at_rest};
    ghost use Rattle.rest_site.specs.RestingLaws.{an_opening_rests, what_was_taken_rests, more_is_taken, events_last, machines_rest_alike};

    ghost Plain = { Acquainted };

    ghost plain = { ruled_machine };

    ghost stands = { AcquaintedStands };

    ghost opening = { opened_alone };

    ghost lasting = { ruled_bytes };

    ghost takes_back = { TakesBack };

    ghost at_rest = { all_at_rest };

    fn act_lasting(
        &mut self,
        actor: u16,
        request: &[u8],
        out: &mut ReplyBuf,
        log: &mut Vec<u8>,
    ) -> Result<(), NoMemory> {
        let before = log.len();
        let done = self.answer_lasting(actor, request, out, log);
        self.note(log.get(before..).unwrap_or(&[]));
        done
    }

    fn take_back(&mut self, bytes: &[u8]) -> Result<bool, NoMemory> {
        if !self.core.is_quiet() {
            return Ok(false);
        }
        let begin = self.begin();
        let taken = take_all(
            &mut self.core,
            &mut self.lives,
            &mut self.loading,
            &begin,
            bytes,
        )?;
        if taken {
            self.note(bytes);
        }
        Ok(taken)
    }

    ghost opens = { an_opening_rests };

    ghost rests = { what_was_taken_rests };

    ghost goes_on = { more_is_taken };

    ghost lasts = { events_last };

    ghost rest_alike = { machines_rest_alike };
}
