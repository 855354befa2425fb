//! What is answered at a door.

ghost use Rattle.std.specs.Prelude.{◌≡◌, true, ◌||◌, [], ◌∷◌, bytes_eq, IsTrue, IsOk, IfOk, OnOk, OnErr};
ghost use Rattle.std.specs.Option.{option_map_or};
ghost use Rattle.plain_site.specs.Site.{Site};
ghost use Rattle.session_core.specs.Machine.{SiteStands};
ghost use Rattle.plain_questions.specs.Readings.{answer_over_bytes};
ghost use Rattle.wire_questions.specs.Laws.{told_over_bytes};
ghost use Rattle.wire_lives.specs.declared.life_codes.TheConstants.{LIFE};
ghost use Rattle.site_lives.specs.Acquainted.{Acquainted};
ghost use Rattle.rest_site.specs.Stands.{AcquaintedStands};
ghost use Rattle.rest_site.specs.Ruled.{ruled_machine};
ghost use Rattle.site_doors.specs.Room.{bound_reached};
ghost use Rattle.site_doors.specs.Rules.{told, told_of_life, told_at, told_full, is_let_in, is_sure_at, is_sure_body, site_doors};

use crate::passages::{comes_in, first_byte, is_question};
use crate::room::bound_reached;
use plain_questions::spelling_laws::{questions_are_apart, questions_have_one_spelling};
use plain_questions::{Answered, Denial};
use rest_site::RestSite;
use session_core::SiteCore;
use site_questions::answer;
use std::alloc::Global;
use talk_bytes::write_refused;
use tardis_base::{NoMemory, Refusal, ReplyBuf};
use wire_lives::life_codes::LIFE;
use wire_lives::write_introduction;
use wire_questions::{answers_fit_a_frame, read_question, write_answer};

/// Whether the actor's request comes in through the door.
pub fn lets_in(door: u8, site: &RestSite, actor: u16, body: &[u8]) -> bool
    ensures let_in { (a : Acquainted) → AcquaintedStands site.now a → result ≡ site_doors.lets_in door a (actor, body.now) }
    ensures coded { result ≡ true → is_let_in door body.now ≡ true }
{
    comes_in(door, body) && bound_reached(site.core(), actor, body).is_none()
}

/// Answers a body that doesn't come in through the door. It changes nothing of the site. A client's commit for which a bound is
/// reached is refused as full, and told the bound.
pub fn answer_at(
    alloc: Global,
    site: &RestSite,
    door: u8,
    actor: u16,
    body: &[u8],
    out: &mut ReplyBuf,
) -> Result<(), NoMemory>
    ensures told { OnOk result ((a : Acquainted) → AcquaintedStands site.now a → out.new ≡ site_doors.answer door a (actor, body.now)) }
    ensures empty { OnErr result (out.new ≡ []) }
    ensures sure { (ruled_machine.is_sure (actor, body.now) || site_doors.is_sure door (actor, body.now)) ≡ true → IsOk result }
{
    if comes_in(door, body) {
        tell_full(site.core(), actor, body, out);
        Ok(())
    } else {
        questions_have_one_spelling();
        questions_are_apart();
        answer_by_code(alloc, site, door, body, out)
    }
}

/// Tells the bound that is reached, and nothing where none is.
fn tell_full(site: &SiteCore, actor: u16, body: &[u8], out: &mut ReplyBuf)
    ensures { (plain : Site) → SiteStands site.now plain → out.new ≡ option_map_or told_full (bound_reached plain (actor, body.now)) [] }
{
    out.clear();
    if let Some(kept) = bound_reached(site, actor, body) {
        write_refused(&Refusal::Full { kept }, out);
    }
}

/// Answers a body with a code that doesn't come in.
fn answer_by_code(
    alloc: Global,
    site: &RestSite,
    door: u8,
    body: &[u8],
    out: &mut ReplyBuf,
) -> Result<(), NoMemory>
    ensures told { OnOk result ((a : Acquainted) → AcquaintedStands site.now a → out.new ≡ told_at door a body.now) }
    ensures empty { OnErr result (out.new ≡ []) }
    ensures sure { IsTrue (is_sure_at door body.now) → IsOk result }
{
    out.clear();
    let code = first_byte(body);
    if is_question(door, code) {
        tell(alloc, site, body, out)
    } else {
        write_refused(&Refusal::Unsupported { op: code }, out);
        Ok(())
    }
}

/// Writes what the bytes are told into the empty buffer.
fn tell(alloc: Global, site: &RestSite, bytes: &[u8], out: &mut ReplyBuf) -> Result<(), NoMemory>
    requires { out.old ≡ [] }
    ensures told { OnOk result ((a : Acquainted) → AcquaintedStands site.now a → out.new ≡ told a bytes.now) }
    ensures empty { OnErr result (out.new ≡ []) }
    ensures sure { IsTrue (is_sure_body bytes.now) → IsOk result }
{
    if asks_life(bytes) {
        tell_life(site, out);
        Ok(())
    } else {
        tell_of_site(alloc, site.core(), bytes, out)
    }
}

/// Whether the bytes are the question who the site is.
fn asks_life(bytes: &[u8]) -> bool
    ensures { result ≡ bytes_eq bytes.now (LIFE ∷ []) }
{
    bytes == [LIFE].as_slice()
}

/// Writes the site's introduction into the empty buffer, or that it has none to give.
fn tell_life(site: &RestSite, out: &mut ReplyBuf)
    requires { out.old ≡ [] }
    ensures { (a : Acquainted) → AcquaintedStands site.now a → out.new ≡ told_of_life a }
{
    let (own, sites) = site.place();
    match site.lives().introduction(own, sites) {
        Some(introduction) => write_introduction(&introduction, out),
        None => write_refused(&Refusal::Unsupported { op: LIFE }, out),
    }
}

/// Writes what the bytes are told of the site into the empty buffer.
fn tell_of_site(
    alloc: Global,
    site: &SiteCore,
    bytes: &[u8],
    out: &mut ReplyBuf,
) -> Result<(), NoMemory>
    requires { out.old ≡ [] }
    ensures told { OnOk result ((plain : Site) → SiteStands site.now plain → out.new ≡ answer_over_bytes plain bytes.now) }
    ensures empty { OnErr result (out.new ≡ []) }
    ensures sure { IsTrue (is_sure_body bytes.now) → IsOk result }
{
    answers_fit_a_frame();
    let _ = site.book(); // for the proof alone: it stands for a sound site
    match told_of(alloc, site, bytes) {
        Ok(told) => {
            write_answer(&told, out);
            Ok(())
        },
        Err(NoMemory) => Err(NoMemory),
    }
}

/// What the bytes are told: what the question that they spell is answered, or that they spell none.
fn told_of(alloc: Global, site: &SiteCore, bytes: &[u8]) -> Result<Answered, NoMemory>
    ensures told { (plain : Site) → SiteStands site.now plain → IfOk result (λ told. told ≡ told_over_bytes plain bytes.now) }
    ensures sure { IsTrue (is_sure_body bytes.now) → IsOk result }
{
    match read_question(alloc, bytes) {
        Ok(Some(question)) => answer(alloc, site, &question),
        Ok(None) => Ok(Answered::Refused {
            why: Denial::Malformed,
        }),
        Err(NoMemory) => Err(NoMemory),
    }
}
