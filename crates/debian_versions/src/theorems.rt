//! What holds of the order of versions.

ghost use Rattle.debian_versions.specs.Laws.{VersionsAreOrdered, TildeIsEarlier, ZerosDoNotCount, NoRevisionIsZero};

/// Versions are totally ordered; a tilde behind a part makes it earlier; zeros that digits begin with do not count; and
/// no revision is the revision 0.
pub fn versions_are_ordered()
    ensures order { VersionsAreOrdered }
    ensures tilde { TildeIsEarlier }
    ensures zeros { ZerosDoNotCount }
    ensures revision { NoRevisionIsZero }
{}
