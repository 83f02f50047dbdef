//! What the connections of a server watch for in its sessions and feeds.
ghost use Rattle.std.specs.Prelude.{◌≡◌, [], ◌∷◌};
ghost use Rattle.follow_proto.specs.declared.TheConstants.{ASK_SIZE};
ghost use Rattle.query_proto.specs.Frames.{request_bytes, sent_reply};
ghost use Rattle.query_proto.specs.declared.replies.Reply.TheVariants.{Done};
ghost use Rattle.query_proto.specs.declared.requests.Request.TheVariants.{Stop};
ghost use Rattle.path_run.specs.Spoken.{FramesAreMessages};

use wire::Speech;

/// Returns the numbers that a server's connections watch for: those of a stop, of the reply to it, and of an ask.
pub fn speech() -> Speech
    ensures stop { result.stop ∷ [] ≡ request_bytes Stop }
    ensures done { result.done ≡ sent_reply Done [] }
    ensures ask { result.ask_size ≡ ASK_SIZE }
{
    Speech {
        stop: 0x06,
        done: [0, 0, 0, 1, 0x8A],
        ask_size: 5,
    }
}

/// A law: what a connection takes for a frame is the frame of a request as sent. No code runs.
pub fn frames_are_messages()
    ensures { FramesAreMessages }
{}
