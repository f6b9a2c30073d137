//! Definitions of a day of transactions: its script, how it is answered, where it stops, and its summary.
#![tactic(auto)]

ghost use Rattle.day_model.specs.Readings.{DaysMakeOnce, DaysSpeak};
ghost use Rattle.day_model.specs.Worked.{FirstDayIsWritten, FirstDayDraws};

/// Worked days: what a day of one transaction draws that draws from 0 on, and its script.
pub fn worked_days()
    ensures draws { FirstDayDraws }
    ensures script { FirstDayIsWritten }
{}

/// Each line of a day of at most 10,000 transactions says a statement.
pub fn days_speak()
    ensures { DaysSpeak }
{}

/// A day of at most 10,000 transactions makes the volumes of A and of B by its first two lines, and by no other.
pub fn days_make_once()
    ensures { DaysMakeOnce }
{}
