//! What the definitions promise.
ghost use Rattle.careful_write.specs.State.{OneContent, PowerKeeps};

/// Every image that a power loss may leave of a ready store has the store's content.
pub fn one_content()
    ensures { OneContent }
{}

/// Where every image has the content before a group or the content after it, the disk has one of them after `power`, and its gate is closed or its
/// group fits.
pub fn power_keeps()
    ensures { PowerKeeps }
{}
