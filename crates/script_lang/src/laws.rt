// What the grammar keeps.
ghost use Rattle.std.specs.Prelude.{ℕ, List};
ghost use Rattle.script_lang.specs.Where.{LineTellsWhere};

/// Where a line leaves the grammar, the column told is that of the first word with which the words so far are the front of no statement, or
/// that behind the line where they are the front of one; or, where the last word names a journal of a file and may not stand last, that word's.
pub fn columns_tell_where_no_statement_goes_on()
    ensures { (line : List ℕ) → LineTellsWhere line }
{}
