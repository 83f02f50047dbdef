//! Laws of feeds, for proofs. None of these functions does anything: each one's contract is a law.

ghost use Rattle.std.specs.Prelude.{[], ◌∷◌, ◌++◌};
ghost use Rattle.moves.specs.Maps.{map_of};
ghost use Rattle.moves.specs.declared.Terrain.TheVariants.{Land};
ghost use Rattle.follow_proto.specs.Feeds.{ahead_bytes, ask_bytes, edits_bytes, start_bytes};
ghost use Rattle.follow_proto.specs.Examples.{first_blocked};
ghost use Rattle.feed_node.specs.Examples.{one_accepted};
ghost use Rattle.feed_node.specs.Feeds.{FeedsBeginAnywhere, IsFeed};

/// Two feeds of the map `...` on which one edit was accepted, that blocks the first cell: a follower that knows none is
/// told it, and one that knows two is told that it is ahead.
pub fn feeds_are_these()
    ensures behind { IsFeed (map_of 3 1 (Land ∷ Land ∷ Land ∷ [])) one_accepted (ask_bytes 0)
        (start_bytes (map_of 3 1 (Land ∷ Land ∷ Land ∷ [])) ++ edits_bytes 0 (first_blocked ∷ [])) }
    ensures ahead { IsFeed (map_of 3 1 (Land ∷ Land ∷ Land ∷ [])) one_accepted (ask_bytes 2)
        (start_bytes (map_of 3 1 (Land ∷ Land ∷ Land ∷ [])) ++ ahead_bytes 1) }
{}

/// A feed of what a pass saw from some point on is a feed of all that it has seen.
pub fn feeds_begin_anywhere()
    ensures { FeedsBeginAnywhere }
{}
