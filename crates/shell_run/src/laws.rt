//! Laws of requests and replies. Each function is empty, and its contract is the law.

ghost use Rattle.std.specs.Prelude.{◌≡◌, codes};
ghost use Rattle.tardis_base.specs.Plain.{no_memory};
ghost use Rattle.shell_text.specs.Spelled.{reply_line_of};
ghost use Rattle.shell_run.specs.Answers.{malformed};
ghost use Rattle.shell_run.specs.Fitting.{RequestsFitAFrame};

use wire_item::spellings_have_their_lengths;

/// The spelling of each request has at most 1,048,576 bytes, as many as a frame holds.
pub fn requests_fit_a_frame()
    ensures { RequestsFitAFrame }
{
    spellings_have_their_lengths();
}

/// The lines of the two replies that a shell may give without its machine.
pub fn own_replies_have_lines()
    ensures malformed { reply_line_of malformed ≡ codes "refused malformed" }
    ensures wanting { reply_line_of no_memory ≡ codes "nomemory" }
{}
