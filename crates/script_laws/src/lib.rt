//! Laws of the grammar of scripts: to what a line sets a clock, and what lines of recovery say.
#![tactic(auto)]

ghost use Rattle.script_laws.specs.RecoveryLines.{RecoveryLinesAreRead};
ghost use Rattle.script_laws.specs.Clocks.{ClocksAreEarly};

/// A line that sets a clock sets it to a moment that can be read, the last one of the year 8999 at most; and one that recovers a file up to a moment names
/// such a one.
pub fn clocks_are_early()
    ensures { ClocksAreEarly }
{}

/// What worked lines of image journals, saves and recoveries say.
pub fn recovery_lines_are_read()
    ensures { RecoveryLinesAreRead }
{}
