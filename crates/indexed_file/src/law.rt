//! What the definitions of an indexed file promise.
ghost use Rattle.change_set.specs.records_model.Slots.{PutSets, PutKeepsOrder, TargetTells, TidyKeeps, TidyKeepsOrder, TidyKeepsRooms, PutKeepsRooms};
ghost use Rattle.indexed_file.specs.Chain.{AddsFew};
ghost use Rattle.change_set.specs.records_model.Parts.{PartsKeep};

/// A slot that is put into the bucket for its key sets the key, and no other.
pub fn put_law()
    ensures { PutSets }
{}

/// What a key has is what it has in the bucket for it.
pub fn target_law()
    ensures { TargetTells }
{}

/// Tidied slots mean the same map.
pub fn tidy_law()
    ensures { TidyKeeps }
{}

/// The rooms of held keys stay, so what they had can be set in place.
pub fn room_law()
    ensures tidy { TidyKeepsRooms }
    ensures put { PutKeepsRooms }
{}

/// The keys stay in order along the chain.
pub fn order_law()
    ensures put { PutKeepsOrder }
    ensures tidy { TidyKeepsOrder }
{}

/// The parts of a bucket have its slots in order, and are as many as are counted. A set adds at most two buckets, and none where the tidied bucket
/// holds the slot.
pub fn part_law()
    ensures parts { PartsKeep }
    ensures few { AddsFew }
{}
