//! Laws of the cut.

ghost use Rattle.line_cut.specs.Laws.{OneCut, EveryCut, MoreBytes, MoreLines, FrontOfCut};

/// Bytes have one cut: one list of lines, and one rest in which no line and its line feed are next. So whatever the pieces
/// in which bytes are fed to a cutter, the lines and the end are the same. This call does nothing.
pub fn one_cut()
    ensures one { OneCut }
    ensures some { EveryCut }
    ensures front { FrontOfCut }
    ensures more_bytes { MoreBytes }
    ensures more_lines { MoreLines }
{}
