//! Laws of the numbers of the protocol, which follow from the definitions alone: no code runs.
ghost use Rattle.std.specs.Prelude.{◌≡◌};

use crate::kinds::{
    ACCEPTED, BOARD, BUILD, BYE, CHANGE, CHANGES, DONE, EDIT_REFUSED, HELLO, MALFORMED, NO_MEMORY,
    NOTHING_NEW, OVERTAKEN, PATH, PUBLISHED, QUERY, REFUSED, STATUS, STOP, UNREACHABLE, WELCOME,
};
use crate::{MAX_MOVES, MAX_REPLY, MAX_REQUEST, REQUEST_ROOM};

/// The first byte of each request.
pub fn request_kinds_are_these()
    ensures query { QUERY ≡ 1 }
    ensures change { CHANGE ≡ 2 }
    ensures build { BUILD ≡ 3 }
    ensures status { STATUS ≡ 4 }
    ensures bye { BYE ≡ 5 }
    ensures stop { STOP ≡ 6 }
    ensures hello { HELLO ≡ 7 }
    ensures changes { CHANGES ≡ 8 }
{}

/// The first byte of each reply: 0x81 to 0x8D.
pub fn reply_kinds_are_these()
    ensures path { PATH ≡ 129 }
    ensures unreachable { UNREACHABLE ≡ 130 }
    ensures refused { REFUSED ≡ 131 }
    ensures accepted { ACCEPTED ≡ 132 }
    ensures edit_refused { EDIT_REFUSED ≡ 133 }
    ensures published { PUBLISHED ≡ 134 }
    ensures nothing_new { NOTHING_NEW ≡ 135 }
    ensures overtaken { OVERTAKEN ≡ 136 }
    ensures board { BOARD ≡ 137 }
    ensures done { DONE ≡ 138 }
    ensures malformed { MALFORMED ≡ 139 }
    ensures no_memory { NO_MEMORY ≡ 140 }
    ensures welcome { WELCOME ≡ 141 }
{}

/// How long a request and a reply may be, in bytes, and how many moves a path may have.
pub fn sizes_are_these()
    ensures request { MAX_REQUEST ≡ 322 }
    ensures sent { REQUEST_ROOM ≡ 324 }
    ensures reply { MAX_REPLY ≡ 32780 }
    ensures moves { MAX_MOVES ≡ 32767 }
{}
