//! An exchange with a peer.

ghost use Rattle.std.specs.Prelude.{◌≡◌, [], length, IfOk};
ghost use Rattle.tardis_base.specs.Sizes.{piece as most_taken};
ghost use Rattle.dag_lock.specs.Named.{lock_id, start_of};
ghost use Rattle.site_sync.specs.Asking.{TellsCounts};
ghost use Rattle.site_sync.specs.Steps.{GoesOn};
ghost use Rattle.site_sync.specs.Exchanges.{Exchange, Syncs};

use crate::deliveries::{NOBODY, deliver_all};
use crate::ends::SyncEnd;
use crate::fetches::fetch;
use crate::pulls::put_pull;
use dag_lock::{DagLock, Pass};
use frame_cut::FrameCutter;
use std::alloc::Global;
use std::sync::Wait;
use tardis_base::{Machine, NoMemory, PIECE, ReplyBuf};
use tardis_io::{Dial, Duplex, Failed, Link};
use trail_log::Acted;
use wire_talk::request_codes;

/// Makes one exchange with a peer: calls it at its address, asks it for what is above the own counts, and delivers each
/// item of the batch that it answers, in order. The site's turn is taken for each step alone, and never held while the
/// peer is waited for. All steps are those of actor 0: a Stat for the counts, then a Deliver for each item. A link that
/// was had is finished and put back, whatever the end.
///
/// The first step that isn't answered ends the exchange; what was delivered before stays, and a further exchange goes on
/// from there. All buffers are taken first; where they aren't had, the peer isn't called.
pub fn sync_round<M: Machine, D: Dial, R: Wait>(
    alloc: Global,
    rt: &R,
    lock: &DagLock<M>,
    pass: Pass,
    dial: &mut D,
    address: &str,
) -> (Pass, SyncEnd)
    requires lock { pass.lock ≡ lock_id lock.now }
    requires counts { TellsCounts M.plain (M.opening (start_of lock.now).machine) }
    ensures { Syncs M.opening M.plain (start_of lock.now) D.Link.left D.Link.given D.Link.take_faults D.Link.faults D.told D.faults
        address.now pass result.0 dial.old dial.new result.1 }
{
    let Ok(mut buffers) = Buffers::new(alloc) else {
        return (pass, SyncEnd::NoMemory);
    };
    match dial.call(address) {
        Ok(mut link) => {
            let (pass, end) = exchange(alloc, rt, lock, pass, &mut link, &mut buffers);
            link.finish();
            dial.put_back(link);
            (pass, end)
        }
        Err(Failed) => (pass, SyncEnd::DialFault),
    }
}

/// The buffers of an exchange.
#[derive(Drop)]
struct Buffers {
    request: ReplyBuf,
    reply: ReplyBuf,
    cutter: FrameCutter,
    piece: Vec<u8>,
}

impl Buffers {
    fn new(alloc: Global) -> Result<Buffers, NoMemory>
        ensures { IfOk result (λ b. (b.cutter ≡ []) × (length b.piece.items ≡ most_taken)) }
    {
        let Ok(piece) = vec![in alloc; 0; PIECE] else {
            return Err(NoMemory);
        };
        Ok(Buffers {
            request: ReplyBuf::new(alloc)?,
            reply: ReplyBuf::new(alloc)?,
            cutter: FrameCutter::new(alloc)?,
            piece,
        })
    }
}

/// The request Stat.
const STAT: [u8; 1] = [request_codes::STAT];

/// Makes one exchange over a device, with fresh buffers, and doesn't finish it.
fn exchange<M: Machine, D: Duplex, R: Wait>(
    alloc: Global,
    rt: &R,
    lock: &DagLock<M>,
    pass: Pass,
    device: &mut D,
    buffers: &mut Buffers,
) -> (Pass, SyncEnd)
    requires lock { pass.lock ≡ lock_id lock.now }
    requires counts { TellsCounts M.plain (M.opening (start_of lock.now).machine) }
    requires fresh { (buffers.old.cutter ≡ []) × (length buffers.old.piece.items ≡ most_taken) }
    ensures goes_on { GoesOn pass result.0 }
    ensures exchange { Exchange M.opening M.plain (start_of lock.now) D.left D.given D.take_faults D.faults pass result.0 device.old device.new result.1 }
{
    let Buffers {
        request,
        reply,
        cutter,
        piece,
    } = buffers;
    let (pass, acted) = lock.step(rt, pass, NOBODY, &STAT, reply);
    match acted {
        Acted::Done => {
            put_pull(alloc, reply, request);
            match fetch(alloc, device, request.bytes(), cutter, piece.as_mut_slice()) {
                Ok(batch) => deliver_all(rt, lock, pass, &batch, request, reply),
                Err(end) => (pass, end),
            }
        }
        Acted::TrailFull { bytes } => (pass, SyncEnd::TrailFull { bytes }),
        Acted::NoMemory => (pass, SyncEnd::NoMemory),
    }
}
