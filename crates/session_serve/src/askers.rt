//! What asks the lock for a session.

ghost use Rattle.std.specs.Prelude.{◌≡◌, ◌≤◌, List, ℕ, length};
ghost use Rattle.tardis_base.specs.Sizes.{longest_request};
ghost use Rattle.trail_log.specs.declared.acted.Acted.{Acted};
ghost use Rattle.dag_lock.specs.Named.{lock_id, start_of};
ghost use Rattle.dag_lock.specs.Steps.{Ended, Keeps};
ghost use Rattle.session_serve.specs.Passes.{Goes};
ghost use Rattle.session_serve.specs.Asking.{at_first, AsksOnce};

use dag_lock::{DagLock, Pass};
use std::marker::Model;
use std::snapshot::Snapshot;
use std::sync::Wait;
use tardis_base::{Machine, ReplyBuf};
use trail_log::Acted;

/// What can be asked requests.
pub(crate) trait Asks {
    // asked a request, it comes to this, with these bytes, and is then that
    ghost asks: { Self → List ℕ → Acted → List ℕ → Self → Type 0 };

    // what no request changes
    ghost opening: { Self → Self };

    fn ask(&mut self, request: &[u8], out: &mut ReplyBuf) -> Acted
        requires { length request.now ≤ longest_request }
        ensures asks { asks self.old request.now result out.new self.new }
        ensures opening { opening self.new ≡ opening self.old };
}

/// A lock, and the pass of a session to it.
#[derive(Drop)]
pub(crate) struct Asker<'a, M: Machine, R> {
    rt: &'a R,
    lock: &'a DagLock<M>,
    session: u16,
    first: Snapshot<Pass>,
    pass: Option<Pass>,
}

impl<'a, M: Machine, R> Model for Asker<'a, M, R> {
    ghost use Rattle.std.specs.Prelude.{◌≡◌, Some};
    ghost use Rattle.dag_lock.specs.Known.{Known};
    ghost use Rattle.dag_lock.specs.Named.{lock_id, start_of};
    ghost use Rattle.session_serve.specs.Passes.{Goes};
    ghost use Rattle.session_serve.specs.Asking.{Asking, known_or};

    ghost Value = { Asking M };

    ghost view = { λ a. record { start = start_of a.lock.now; session = a.session; first = a.first.value; pass = known_or a.first.value a.pass } };

    ghost invariant = { λ a. (p : Known) × (a.pass ≡ Some p) × (p.lock ≡ lock_id a.lock.now) × Goes a.session a.first.value p };
}

impl<'a, M: Machine, R: Wait> Asker<'a, M, R> {
    ghost use Rattle.dag_lock.specs.Named.{lock_id, start_of};

    pub(crate) fn new(rt: &'a R, lock: &'a DagLock<M>, session: u16, pass: Pass) -> Asker<'a, M, R>
        requires { pass.lock ≡ lock_id lock.now }
        ensures { result ≡ record { start = start_of lock.now; session = session; first = pass; pass = pass } }
    {
        Asker {
            rt,
            lock,
            session,
            first: Snapshot::of(&pass),
            pass: Some(pass),
        }
    }

    /// The pass.
    pub(crate) fn into_pass(self) -> Pass
        ensures same { result ≡ self.entry.pass }
        ensures goes { Goes self.entry.session self.entry.first result }
    {
        let Asker {
            rt: _,
            lock: _,
            session: _,
            first: _,
            pass,
        } = self;
        match pass {
            Some(pass) => pass,
            None => unreachable!(),
        }
    }
}

impl<'a, M: Machine, R: Wait> Asks for Asker<'a, M, R> {
    ghost asks = { AsksOnce M.opening M.plain };

    ghost opening = { at_first };

    fn ask(&mut self, request: &[u8], out: &mut ReplyBuf) -> Acted
        requires { length request.now ≤ longest_request }
        ensures asks { AsksOnce M.opening M.plain self.old request.now result out.new self.new }
        ensures opening { at_first self.new ≡ at_first self.old }
    {
        let Some(pass) = self.pass.take() else {
            unreachable!();
        };
        let (pass, acted) = step_once(self.rt, self.lock, pass, self.session, request, out);
        self.pass = Some(pass);
        acted
    }
}

/// Asks the lock once.
fn step_once<M: Machine, R: Wait>(
    rt: &R,
    lock: &DagLock<M>,
    pass: Pass,
    session: u16,
    request: &[u8],
    out: &mut ReplyBuf,
) -> (Pass, Acted)
    requires lock { pass.lock ≡ lock_id lock.now }
    requires fits { length request.now ≤ longest_request }
    ensures ended { Ended M.opening M.plain (start_of lock.now) pass (session, request.now) out.new result.0 result.1 }
    ensures pass { Keeps pass result.0 }
{
    lock.step(rt, pass, session, request, out)
}
