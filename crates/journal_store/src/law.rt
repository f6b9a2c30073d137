// Laws of journals in rings.
ghost use Rattle.std.specs.Prelude.{◌≡◌, ◌≤◌, ◌<◌, ◌+◌, ◌-◌, ◌++◌, ◌∷◌, [], ℕ, List, length};
ghost use Rattle.std.specs.List.{flat_map};
ghost use Rattle.file_base.specs.declared.head.Span.{Span};
ghost use Rattle.journal_format.specs.journal_model.Entries.{Entry, IsEntry, spelling};
ghost use Rattle.journal_format.specs.journal_model.Ring.{ring_size, put_stream, IsJournal, BeginsAt, KeepsOthers, StandsAt};

/// An entry's bytes at the end, and the end behind them, are one entry more. No block outside of the ring changes.
pub fn one_entry_more()
    ensures adds { (c : List (List ℕ)) (s : Span) (es : List Entry) (e : Entry) → IsJournal c s es → IsEntry e → s.end - s.first + length (spelling e) ≤ ring_size s → IsJournal (put_stream c s s.end (spelling e)) (record s { end = s.end + length (spelling e) }) (es ++ e ∷ []) }
    ensures others { (bs : List ℕ) (c : List (List ℕ)) (s : Span) (p : ℕ) → 0 < s.blocks → KeepsOthers s c (put_stream c s p bs) }
{}

/// Without its first entries, a journal begins behind them.
pub fn fewer_entries()
    ensures { (c : List (List ℕ)) (s : Span) (front back : List Entry) → IsJournal c s (front ++ back) → IsJournal c (record s { first = s.first + length (flat_map spelling front) }) back }
{}

/// Bytes behind the end are not in the journal: it stays the same list of entries while the free bytes of its ring are written.
pub fn bytes_behind_the_end()
    ensures { (c : List (List ℕ)) (s : Span) (es : List Entry) (p : ℕ) (bs : List ℕ) → IsJournal c s es → s.end ≤ p → p + length bs ≤ s.first + ring_size s → IsJournal (put_stream c s p bs) s es }
{}

/// Each entry of a journal stands where it begins.
pub fn entries_stand_where_they_begin()
    ensures { (c : List (List ℕ)) (s : Span) (es : List Entry) (p : ℕ) (e : Entry) → IsJournal c s es → BeginsAt s es p e → StandsAt s p e c }
{}
