//! A session over a link.

ghost use Rattle.std.specs.Prelude.{◌≡◌, ◌<◌, ◌≤◌, List, ℕ, length};
ghost use Rattle.tardis_io.specs.Told.{WhileTold};
ghost use Rattle.tardis_io.specs.Faults.{Rose};
ghost use Rattle.frame_cut.specs.Frames.{IsCut};
ghost use Rattle.site_run.specs.Endings.{EndsAs, IsRunEnd, most_taken};
ghost use Rattle.dag_lock.specs.Named.{lock_id, start_of};
ghost use Rattle.session_serve.specs.Passes.{Goes, new_places};
ghost use Rattle.session_serve.specs.Sessions.{SessionOutcome, status_of};
ghost use Rattle.session_serve.specs.Prompts.{RepliesAtOnce};

use crate::askers::{Asker, Asks};
use crate::ends::SessionEnd;
use crate::replies::SessionReplies;
use dag_lock::{DagLock, Pass};
use site_run::answer_frames;
use std::alloc::Global;
use std::sync::Wait;
use tardis_base::{Machine, NoMemory};
use tardis_io::{Duplex, Link, Status};
use wire_talk::request_codes;

/// Serves one link: the bodies of its frames are requests without an actor, asked of the lock by the session, each
/// when its turn comes, and the frames of the replies are given to the link. The last that is asked is the session's
/// Close, whose reply isn't given. Then the link is finished, whatever the end.
///
/// A request that the lock answers otherwise has no entry in the trail: where the trail is full its reply is the
/// refusal TrailFull, and where memory is wanting it is the reply NoMemory. All buffers are taken first; where they
/// aren't had, nothing is read and nothing asked.
pub fn serve_session<M: Machine, L: Link, R: Wait>(
    alloc: Global,
    rt: &R,
    lock: &DagLock<M>,
    pass: Pass,
    session: u16,
    link: &mut L,
) -> (Pass, SessionEnd)
    requires lock { pass.lock ≡ lock_id lock.now }
    ensures pass { Goes session pass result.0 }
    ensures outcome { WhileTold (L.left link.old) (L.left link.new) (SessionOutcome M.plain (M.opening (start_of lock.now).machine)
        (start_of lock.now).max_trail
        session result.1 (length pass.seen) result.0.seen (new_places pass result.0) (L.given link.old) (L.given link.new)) }
    ensures prompt { RepliesAtOnce M.plain (M.opening (start_of lock.now).machine) (start_of lock.now).max_trail session (length pass.seen)
        (L.left link.old) (L.given link.old) (L.takes link.old) (L.takes link.new) }
    ensures exact { WhileTold (L.left link.old) (L.left link.new) (λ first left. (all : List (List ℕ)) (rest : List ℕ)
        → IsCut first all rest → length first < most_taken
        → (Rose (L.take_faults link.old) (L.take_faults link.new) → ⊥) → (Rose (L.faults link.old) (L.faults link.new) → ⊥)
        → EndsAs rest (status_of result.1)) }
    ensures end { IsRunEnd (status_of result.1) }
    ensures read_later { L.take_faults link.old ≤ L.take_faults link.new }
    ensures write_later { L.faults link.old ≤ L.faults link.new }
    ensures read { result.1 ≡ SessionEnd.ReadFault → Rose (L.take_faults link.old) (L.take_faults link.new) }
    ensures write { result.1 ≡ SessionEnd.WriteFault → Rose (L.faults link.old) (L.faults link.new) }
    ensures nothing { result.1 ≡ SessionEnd.NoMemory → (result.0 ≡ pass) × (L.left link.new ≡ L.left link.old) × (L.given link.new ≡ L.given link.old) }
    ensures parts { L.parts link.new ≡ L.parts link.old }
    ensures finished { L.is_finished link.new }
{
    let served = ask_all(alloc, rt, lock, pass, session, link);
    link.finish();
    served
}

/// Serves one device, and doesn't finish it.
fn ask_all<M: Machine, D: Duplex, R: Wait>(
    alloc: Global,
    rt: &R,
    lock: &DagLock<M>,
    pass: Pass,
    session: u16,
    device: &mut D,
) -> (Pass, SessionEnd)
    requires lock { pass.lock ≡ lock_id lock.now }
    ensures pass { Goes session pass result.0 }
    ensures outcome { WhileTold (D.left device.old) (D.left device.new) (SessionOutcome M.plain (M.opening (start_of lock.now).machine)
        (start_of lock.now).max_trail
        session result.1 (length pass.seen) result.0.seen (new_places pass result.0) (D.given device.old) (D.given device.new)) }
    ensures prompt { RepliesAtOnce M.plain (M.opening (start_of lock.now).machine) (start_of lock.now).max_trail session (length pass.seen)
        (D.left device.old) (D.given device.old) (D.takes device.old) (D.takes device.new) }
    ensures exact { WhileTold (D.left device.old) (D.left device.new) (λ first left. (all : List (List ℕ)) (rest : List ℕ)
        → IsCut first all rest → length first < most_taken
        → (Rose (D.take_faults device.old) (D.take_faults device.new) → ⊥) → (Rose (D.faults device.old) (D.faults device.new) → ⊥)
        → EndsAs rest (status_of result.1)) }
    ensures end { IsRunEnd (status_of result.1) }
    ensures read_later { D.take_faults device.old ≤ D.take_faults device.new }
    ensures write_later { D.faults device.old ≤ D.faults device.new }
    ensures read { result.1 ≡ SessionEnd.ReadFault → Rose (D.take_faults device.old) (D.take_faults device.new) }
    ensures write { result.1 ≡ SessionEnd.WriteFault → Rose (D.faults device.old) (D.faults device.new) }
    ensures nothing { result.1 ≡ SessionEnd.NoMemory → (result.0 ≡ pass) × (device.new ≡ device.old) }
    ensures parts { D.parts device.new ≡ D.parts device.old }
{
    let Ok(mut replies) = SessionReplies::new(alloc) else {
        return (pass, SessionEnd::NoMemory);
    };
    let mut asker = Asker::new(rt, lock, session, pass);
    match answer_frames(alloc, &mut replies, &mut asker, device) {
        Status::NoMemory => (asker.into_pass(), SessionEnd::NoMemory),
        status => {
            let _ = asker.ask(&CLOSE, &mut replies.reply);
            (asker.into_pass(), end_of(status))
        }
    }
}

/// The request Close.
const CLOSE: [u8; 1] = [request_codes::CLOSE];

/// The end of a session of whose run this is the status.
fn end_of(status: Status) -> SessionEnd
    requires { IsRunEnd status }
    ensures { status_of result ≡ status }
{
    match status {
        Status::Ok => SessionEnd::Ended,
        Status::Cut => SessionEnd::Cut,
        Status::LongFrame { len } => SessionEnd::LongFrame { len },
        Status::ReadFault => SessionEnd::ReadFault,
        Status::WriteFault => SessionEnd::WriteFault,
        Status::Spent => SessionEnd::Spent,
        Status::NoMemory => SessionEnd::NoMemory,
        _ => unreachable!(),
    }
}
