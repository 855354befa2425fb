//! A request that isn't about lives, and what lasts of it.

ghost use Rattle.std.specs.Prelude.{◌≡◌, ◌+◌, ◌≤◌, ◌∷◌, ◌++◌, true, [], option_to_list, vec_len, vec_capacity, IsOk, IsTrue, OnOk, OnErr};
ghost use Rattle.rest_machine.specs.Rests.{most_lasting};
ghost use Rattle.plain_site.specs.Site.{Site};
ghost use Rattle.plain_site.specs.Step.{site_machine};
ghost use Rattle.plain_site.specs.Rest.{lasting_of_event};
ghost use Rattle.plain_site.specs.RestSpellings.{all_spelling};
ghost use Rattle.session_core.specs.Stands.{StandsForSite};
ghost use Rattle.session_core.specs.Machine.{SiteStands, opened_with};
ghost use Rattle.join_rules.specs.declared.join_codes.TheConstants.{JOIN};
ghost use Rattle.join_rules.specs.Joins.{is_join, asked_to_join, with_joined, lasting_of_join};

use crate::joins::join;
use crate::notes::note;
use crate::puts::put_lasting;
use join_rules::joins_are_records;
use session_core::SiteCore;
use std::alloc::Global;
use tardis_base::{Machine, NoMemory, ReplyBuf};
use wire_talk::talk_has_one_spelling;

/// The site answers the request, and what lasts of that is put behind the log.
pub(crate) fn serve(
    core: &mut SiteCore,
    actor: u16,
    request: &[u8],
    out: &mut ReplyBuf,
    log: &mut Vec<u8>,
) -> Result<(), NoMemory>
    requires stands { StandsForSite core.old }
    requires room { vec_len log.old + most_lasting ≤ vec_capacity log.old }
    ensures reply { OnOk result ((s : Site) → SiteStands core.old s → out.new ≡ site_machine.reply s (actor, request.now)) }
    ensures step { OnOk result ((s : Site) → SiteStands core.old s → SiteStands core.new (site_machine.step s (actor, request.now))) }
    ensures same { OnErr result ((s : Site) → SiteStands core.old s → SiteStands core.new s) }
    ensures empty { OnErr result (out.new ≡ []) }
    ensures sure { site_machine.is_sure (actor, request.now) ≡ true → IsOk result }
    ensures lasts { OnOk result ((s : Site) → SiteStands core.old s
        → log.new.items ≡ log.old.items ++ all_spelling (option_to_list (lasting_of_event s (actor, request.now)))) }
    ensures nothing { OnErr result (log.new.items ≡ log.old.items) }
    ensures few { vec_len log.new ≤ vec_len log.old + most_lasting }
    ensures capacity { vec_capacity log.old ≤ vec_capacity log.new }
    ensures opening { opened_with core.new ≡ opened_with core.old }
    ensures stands { StandsForSite core.new }
{
    talk_has_one_spelling();
    let before = note(core);
    match core.act(actor, request, out) {
        Ok(()) => {},
        Err(NoMemory) => return Err(NoMemory),
    }
    put_lasting(core, &before, log);
    Ok(())
}

/// The site answers the request to join leaves, and what lasts of that is put behind the log.
pub(crate) fn serve_join(
    core: &mut SiteCore,
    alloc: Global,
    request: &[u8],
    out: &mut ReplyBuf,
    log: &mut Vec<u8>,
) -> Result<(), NoMemory>
    requires asks { IsTrue (is_join request.now) }
    requires stands { StandsForSite core.old }
    requires room { vec_len log.old + most_lasting ≤ vec_capacity log.old }
    ensures reply { OnOk result ((s : Site) → SiteStands core.old s → out.new ≡ JOIN ∷ (asked_to_join s request.now).0 ∷ []) }
    ensures step { OnOk result ((s : Site) → SiteStands core.old s → SiteStands core.new (with_joined (asked_to_join s request.now).1 s)) }
    ensures same { OnErr result ((s : Site) → SiteStands core.old s → SiteStands core.new s) }
    ensures empty { OnErr result (out.new ≡ []) }
    ensures lasts { OnOk result ((s : Site) → SiteStands core.old s
        → log.new.items ≡ log.old.items ++ all_spelling (option_to_list (lasting_of_join s request.now))) }
    ensures nothing { OnErr result (log.new.items ≡ log.old.items) }
    ensures few { vec_len log.new ≤ vec_len log.old + most_lasting }
    ensures capacity { vec_capacity log.old ≤ vec_capacity log.new }
    ensures opening { opened_with core.new ≡ opened_with core.old }
    ensures stands { StandsForSite core.new }
{
    joins_are_records();
    let noted = note(core);
    match join(core, alloc, request, out) {
        Ok(()) => {},
        Err(NoMemory) => return Err(NoMemory),
    }
    put_lasting(core, &noted, log);
    Ok(())
}
