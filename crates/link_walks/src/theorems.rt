//! What holds of paths along known links, for the layers above.

ghost use Rattle.link_walks.specs.Performing.{FollowedPerformed, FollowedFilesArePerformed};
ghost use Rattle.link_walks.specs.Resolving.{ReachResolves, NoLinksNoWalk};
ghost use Rattle.link_walks.specs.Staying.{LinksStay, NoLinksNoChange};

use feature_trees::theorems::puts_are_local;

/// The path that is reached is where a path leads that is resolved name by name. Without known links it is the path.
pub fn reached_paths_resolve()
    ensures resolve { ReachResolves }
    ensures none { NoLinksNoWalk }
{}

/// A followed act leaves the known links, and the directories at their ends. Without known links a plan stays.
pub fn links_stay()
    ensures stay { LinksStay }
    ensures none { NoLinksNoChange }
{
    puts_are_local();
}

/// The acts of a plan that meet their conditions meet them once they are followed, and so does each act on a file of
/// a package at a path with a name.
pub fn followed_acts_are_performed()
    ensures plans { FollowedPerformed }
    ensures files { FollowedFilesArePerformed }
{}
