//! Laws of a server's log.

ghost use Rattle.log_groups.specs.Laws.{WrittenIsHeld, LogGrows, OneLog, EveryLog, LogIsRead, CrashIsTorn, MendKeepsLog, MendedIsWhole};

use log_text::log_laws;

/// What bytes hold, what a crash leaves of a log, and that a torn end can be mended. This call does nothing.
pub fn group_laws()
    ensures written { WrittenIsHeld }
    ensures grows { LogGrows }
    ensures one { OneLog }
    ensures every { EveryLog }
    ensures read { LogIsRead }
    ensures crash { CrashIsTorn }
    ensures mend { MendKeepsLog }
    ensures mended { MendedIsWhole }
{
    log_laws();
}
