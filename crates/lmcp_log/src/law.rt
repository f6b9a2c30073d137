//! What a node that opens its log again may cite.
ghost use Rattle.std.specs.Prelude.{◌≡◌, ◌⊎◌, ◌+◌, ◌≤◌, ℕ, List, length, replicate, Option, None, IfSome};
ghost use Rattle.careful_write.specs.State.{StoreState, IsReady, IsEither, Leaves, content};
ghost use Rattle.log_laws.specs.commit_protocol.Messages.{LogRecord};
ghost use Rattle.log_laws.specs.Slots.{Slots};
ghost use Rattle.volume.specs.Empty.{IsEmptyVolume};
ghost use Rattle.volume_format.specs.declared.home.Home.{Home};
ghost use Rattle.lmcp_log.specs.Keeping.{IsWhole, Keeps, Loads, SameSlots};
ghost use Rattle.lmcp_log.specs.Log.{StagesSlot};

/// The log, read again, is as it was left:
///
/// - a content that keeps the slots loads them and no others;
/// - after a group that was applied each image keeps the slots that were staged;
/// - after one that was not, each image keeps the slots from before it or those that were staged;
/// - blocks outside the slots do not count, and on a volume that was just made all slots are free;
/// - what is staged leaves slots whole: a free one stays all zeros.
pub fn log_is_as_it_was_left()
    ensures loads { (ss : Slots) (c : List (List ℕ)) → Keeps ss c → Loads c ss }
    ensures applied { (ss : Slots) (old new : StoreState) → IfSome old.current (Keeps ss) → content new ≡ old.current → IsReady new → Leaves (Keeps ss) new.disk }
    ensures cut { (before after : Slots) (old new : StoreState) → IfSome (content old) (Keeps before) → IfSome old.current (Keeps after)
        → Leaves (IsEither (content old) old.current) new.disk → Leaves (λ c. Keeps before c ⊎ Keeps after c) new.disk }
    ensures beside { (ss : Slots) (c d : List (List ℕ)) → Keeps ss c → SameSlots (length ss) c d → Keeps ss d }
    ensures empty { (home : Home) (c : List (List ℕ)) → IsEmptyVolume home c → Keeps (replicate home.slots None) c }
    ensures whole { (before after : Slots) (old new : StoreState) (entry : Option LogRecord) → StagesSlot before after old new entry → IfSome old.current (λ c. 66 + length before ≤ length c)
        → IfSome old.current (IsWhole before) → IfSome new.current (IsWhole after) }
    ensures whole_beside { (ss : Slots) (c d : List (List ℕ)) → IsWhole ss c → SameSlots (length ss) c d → IsWhole ss d }
    ensures whole_empty { (home : Home) (c : List (List ℕ)) → IsEmptyVolume home c → IsWhole (replicate home.slots None) c }
{}
