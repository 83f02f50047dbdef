//! The look at an image, and what its map is like.

ghost use Rattle.std.specs.Prelude.{◌≡◌, ◌≤◌, ◌<◌};
ghost use Rattle.moves.specs.Maps.{IsWithinLimits};
ghost use Rattle.moves.specs.declared.TheConstants.{MAX_SIDE};
ghost use Rattle.versions.specs.Databases.{Versioned};
ghost use Rattle.path_image.specs.Images.{IsImageOf};
ghost use Rattle.path_image.specs.Reading.{LeadsInside};
ghost use Rattle.pathdb.specs.Calls.{SaysCheck, Tells, facts_of};

use crate::Status;
use path_image::Image;

/// What an image says of its map.
#[repr(C)]
#[derive(Clone, Copy, Debug, Default, PartialEq, Eq)]
pub struct PathdbFacts {
    /// How many columns the map has, from 1 to 4,096.
    pub width: u32,
    /// How many rows the map has, from 1 to 4,096.
    pub height: u32,
    /// How many passable cells there are.
    pub cells: u32,
    /// How many components the cells make.
    pub components: u32,
    /// How many edits of the first map the map comes after.
    pub prefix: u32,
}

/// Looks once at words of whatever source: whether each number in them leads inside. Where that is so the other calls
/// may be made with them. Else `part` is the number of the component or of the cell that is wrong, where it is one, and
/// 0.
#[unsafe(no_mangle)]
pub extern "C" fn pathdb_check(words: &[u32], part: &mut u32) -> u32
    ensures told { Tells result (SaysCheck words.now part.new) }
    ensures passes { (version : Versioned) → IsImageOf words.now version
        → IsWithinLimits version.map.width version.map.height → result ≡ 0 }
{
    let (status, number) = check(words);
    *part = number;
    status.number()
}

/// What an image that passed the look says of its map.
#[unsafe(no_mangle)]
pub extern "C" fn pathdb_read_facts(words: &[u32], facts: &mut PathdbFacts)
    requires { LeadsInside words.now }
    ensures facts { (version : Versioned) → IsImageOf words.now version
        → facts.new ≡ facts_of version }
    ensures width { (0 < facts.new.width) × (facts.new.width ≤ MAX_SIDE) }
    ensures height { (0 < facts.new.height) × (facts.new.height ≤ MAX_SIDE) }
{
    let image = Image::known(words);
    *facts = PathdbFacts {
        width: image.width(),
        height: image.height(),
        cells: image.cells(),
        components: image.components(),
        prefix: image.prefix(),
    };
}

/// The look at words as a status, with the number of the part that is wrong.
fn check(words: &[u32]) -> (Status, u32)
    ensures told { SaysCheck words.now result.1 result.0 }
    ensures passes { (version : Versioned) → IsImageOf words.now version
        → IsWithinLimits version.map.width version.map.height → result.0 ≡ Status.Done }
{
    match Image::over(words) {
        Ok(_) => (Status::Done, 0),
        Err(fault) => Status::of_fault(fault),
    }
}
