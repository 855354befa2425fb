//! Laws of the log.

ghost use Rattle.log_text.specs.Laws.{TextHasNoZero, TextIsRead, CrashLeavesFront, AllIsRead, OneReading, EveryReading, MendKeepsItems, ZeroEnds, TornEndIsLast, MixedParts, AllOrNone};

/// What a crash leaves of a log, and that all bytes have one reading. This call does nothing.
pub fn log_laws()
    ensures no_zero { TextHasNoZero }
    ensures text { TextIsRead }
    ensures crash { CrashLeavesFront }
    ensures all { AllIsRead }
    ensures one { OneReading }
    ensures some { EveryReading }
    ensures mend { MendKeepsItems }
    ensures zero { ZeroEnds }
    ensures torn { TornEndIsLast }
    ensures parts { MixedParts }
    ensures group { AllOrNone }
{}
