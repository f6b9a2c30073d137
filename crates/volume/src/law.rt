//! What the definitions promise.
ghost use Rattle.volume.specs.Catalogs.{StandsOnTheFront};
ghost use Rattle.volume.specs.Conditions.{SoundIsValid};
ghost use Rattle.volume.specs.Contents.{SoundOrFinding};
ghost use Rattle.volume.specs.Findings.{KeepsFirst};
ghost use Rattle.volume.specs.Listing.{BeginsWithFirst, EmptyIsValid, FirstIsFirst, OneListing};

/// Contents that agree in the home block, the directory and the block of the recovery unit journal tell the same.
pub fn catalogs_stand_on_the_front()
    ensures { StandsOnTheFront }
{}

/// A content that tells a sound volume meets all conditions.
pub fn sound_volumes_are_valid()
    ensures { SoundIsValid }
{}

/// Each content of a disk, whatever its bytes are, tells a sound volume of the node, or one of the conditions is the first that fails.
pub fn each_content_has_a_volume_or_a_finding()
    ensures { SoundOrFinding }
{}

/// A content has one list of failing conditions. It begins with the one that mounting names, and is empty where all hold.
pub fn listings_begin_with_the_first_finding()
    ensures first { FirstIsFirst }
    ensures begins { BeginsWithFirst }
    ensures empty { EmptyIsValid }
    ensures one { OneListing }
{}

/// Of all findings that were added, the first 1,000 are kept.
pub fn first_findings_are_kept()
    ensures { KeepsFirst }
{}
