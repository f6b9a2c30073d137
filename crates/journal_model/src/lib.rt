//! Definitions of journals: the spelling of an entry, a ring of blocks that holds a list of entries, and the units that entries tell.
#![tactic(auto)]
