//! What lines a site's replies have. The function is empty, and its contract is the law.

ghost use Rattle.tardis_main.specs.Laws.{RepliesHaveLines};

use plain_site::replies::replies_fit_a_frame;
use wire_talk::talk_has_one_spelling;

/// Each reply of a sound site has a line: what a shell and an audit write of its bytes is the line of that reply.
pub fn replies_have_lines()
    ensures { RepliesHaveLines }
{
    replies_fit_a_frame();
    talk_has_one_spelling();
}
