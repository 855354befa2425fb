//! The law of the line `N auto`. The function is empty, and its contract is the law.

ghost use Rattle.auto_run.specs.AutoLines.{AutoLinesHaveOneReading};

/// Each actor has one auto line, and a line is read as that of the one actor of whom it is the auto line.
pub fn auto_lines_have_one_reading()
    ensures { AutoLinesHaveOneReading }
{}
