//! What holds of an index in blocks.
ghost use Rattle.index_blocks.specs.Laws.{ClimbLeads, LevelsLead, LevelsMayClimb, LevelsRead};

/// Where an index leads to its leaves, the way of a key is laid out and ends at the leaf for it.
pub fn levels_lead()
    ensures { LevelsLead }
{}

/// Blocks that have the entries of an index are read as that index, from the root down.
pub fn levels_read()
    ensures { LevelsRead }
{}

/// Entries may be handed up into the levels of an index that leads to its leaves, along the way of a key.
pub fn levels_may_climb()
    ensures { LevelsMayClimb }
{}

/// Entries that were handed up leave an index that leads to all leaves, the old and the new ones.
pub fn climb_leads()
    ensures { ClimbLeads }
{}
