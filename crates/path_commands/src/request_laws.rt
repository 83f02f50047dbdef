//! Laws of the definitions of command lines. No code runs.
ghost use Rattle.std.specs.Prelude.{◌≡◌};
ghost use Rattle.path_commands.specs.PlainWords.{OtherOptionsAreRefused, PlainWordsAreRead};

use crate::words::STANDARD_ROOM;
use build_pool::MAX_WORKERS;
use edit_log::MAX_EDITS;
use map_read::MAX_MAP_BYTES;
use path_core::MAX_ENTRIES;
use path_replay::{MAX_EVENTS_BYTES, PASSES};
use scen_read::MAX_SCEN_BYTES;
use scen_run::queries::QUERIES;

/// The longest files, in bytes.
pub fn file_limits_are_these()
    ensures map { MAX_MAP_BYTES ≡ 2097152 }
    ensures scenarios { MAX_SCEN_BYTES ≡ 16777216 }
    ensures events { MAX_EVENTS_BYTES ≡ 16777216 }
{}

/// The most edits and entries of a board, the default number of entries to reserve memory for, the
/// most passes of a replay, and the most threads of a build.
pub fn board_limits_are_these()
    ensures edits { MAX_EDITS ≡ 1048576 }
    ensures entries { MAX_ENTRIES ≡ 2097153 }
    ensures passes { PASSES ≡ 64 }
    ensures workers { MAX_WORKERS ≡ 64 }
    ensures room { STANDARD_ROOM ≡ 65536 }
{}

/// How many queries measure a made map.
pub fn made_maps_get_these_queries()
    ensures { QUERIES ≡ 16 }
{}

/// Words without a leading hyphen go to the arguments of `path` and `check` in order; one too few
/// or too many is refused.
pub fn plain_words_are_read()
    ensures { PlainWordsAreRead }
{}

/// Any option except `--order` and `--workers` is refused after such words, whatever follows it.
pub fn other_options_are_refused()
    ensures { OtherOptionsAreRefused }
{}
