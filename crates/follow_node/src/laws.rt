//! Laws of followers, for proofs. None of these functions does anything: each one's contract is a law.

ghost use Rattle.follow_node.specs.Agreement.{FollowersAgree, FollowersAgreeShort};
ghost use Rattle.follow_node.specs.StreamLaws.{BytesDecide, FramesSpellOneMessage, PiecesJoin};

/// A follower that takes one piece and then the next has taken the bytes of both.
pub fn pieces_join()
    ensures { PiecesJoin }
{}

/// A frame spells one message at most.
pub fn frames_spell_one_message()
    ensures { FramesSpellOneMessage }
{}

/// What becomes of a follower depends on the bytes alone.
pub fn bytes_decide()
    ensures { BytesDecide }
{}

/// A follower of a leader's feed accepts the first of the leader's edits, and its versions are the leader's after as
/// many edits: where it has taken all that came, and where its memory ran out.
pub fn followers_agree()
    ensures all { FollowersAgree }
    ensures short { FollowersAgreeShort }
{}
