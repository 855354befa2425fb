//! Asking a peer for what is above the own counts.

ghost use Rattle.std.specs.Prelude.{◌≡◌, ◌+◌, ◌≤◌, ◌++◌, List, length, flat_map};
ghost use Rattle.tardis_base.specs.Sizes.{longest_frame};
ghost use Rattle.tardis_base.specs.declared.replies.SiteLine.{SiteLine};
ghost use Rattle.site_sync.specs.Asking.{AreStatistics, StatesLines, count_spelling, pull_frame};

use frame_cut::put_frame;
use item_bytes::write_u32;
use std::alloc::Global;
use talk_bytes::read_reply;
use tardis_base::{Reply, ReplyBuf, SiteLine, SiteLines};
use wire_talk::request_codes::PULL;
use wire_talk::talk_has_one_spelling;

/// Writes the frame that asks for what is above the counts of the statistics, in place of the bytes from before. It takes
/// no memory, and uses the statistics up.
pub(crate) fn put_pull(alloc: Global, statistics: &mut ReplyBuf, out: &mut ReplyBuf)
    requires told { (lines : List SiteLine) × AreStatistics statistics.old lines }
    ensures { (lines : List SiteLine) → AreStatistics statistics.old lines → out.new ≡ pull_frame lines }
{
    talk_has_one_spelling();
    match read_reply(alloc, statistics.bytes()) {
        Ok(told) => put_counts_of(&told, statistics, out),
        Err(_) => unreachable!(),
    }
}

/// Writes the frame that asks for what is above the counts of this reply.
fn put_counts_of(told: &Reply, body: &mut ReplyBuf, out: &mut ReplyBuf)
    requires { (lines : List SiteLine) × StatesLines told.now lines }
    ensures { (lines : List SiteLine) → StatesLines told.now lines → out.new ≡ pull_frame lines }
{
    match told {
        Reply::Stat { sites, .. } => put_lines(sites, body, out),
        _ => unreachable!(),
    }
}

/// Writes the frame of a Pull with the counts of these lines.
fn put_lines(lines: &SiteLines, body: &mut ReplyBuf, out: &mut ReplyBuf)
    ensures { out.new ≡ pull_frame lines.now }
{
    body.clear();
    body.push_byte(PULL);
    body.push_byte(lines.len() as u8);
    put_counts(lines.as_slice(), body);
    let mut head = [0; 4];
    put_frame(body.bytes(), &mut head);
    out.clear();
    out.push(&head);
    out.push(body.bytes());
}

fn put_counts(lines: &[SiteLine], out: &mut ReplyBuf)
    requires { length out.old + length (flat_map count_spelling lines.now) ≤ longest_frame }
    ensures { out.new ≡ out.old ++ flat_map count_spelling lines.now }
{
    for line in lines {
        write_u32(line.count, out);
    }
}
