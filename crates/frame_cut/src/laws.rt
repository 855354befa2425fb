//! Laws of the cut.

ghost use Rattle.frame_cut.specs.Laws.{OneCut, EveryCut, MoreBytes, MoreBodies, FrontOfCut};

/// Bytes have one cut: one list of bodies, and one rest in which no whole frame is next. So whatever the pieces in which
/// bytes are fed to a cutter, the bodies and the end are the same. This call does nothing.
pub fn one_cut()
    ensures one { OneCut }
    ensures some { EveryCut }
    ensures front { FrontOfCut }
    ensures more_bytes { MoreBytes }
    ensures more_bodies { MoreBodies }
{}
