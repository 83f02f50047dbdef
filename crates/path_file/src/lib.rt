//! Database files: the file of a version, put through a sink, and a version read from the bytes of a file.
//!
//! A file has the map, the number of edits that the map comes after, the order of the cells, and the rows of the
//! database as words, in numbers whose highest byte comes first. Whoever reads it believes nothing of it: each field is
//! judged as it comes, and then the rows of each component, without any search.
//!
//! The file of a map of two blocked cells, behind the exit status:
//!
//! ```text
//! run | export M | rows @@
//! 0 PATHDB01\x00\x00\x00\x02\x00\x00\x00\x01\x00\x00\x00\x00\x00\x00\x00
//! ```
#![tactic(auto)]

ghost use Rattle.std.specs.Prelude.{◌≡◌, ◌≤◌, length, IfErr, IfOk};
ghost use Rattle.path_file.specs.Files.{HasFile, file_of};
ghost use Rattle.path_file.specs.Faults.{IsRefusal};

mod buffer;
mod checking;
mod exporting;
mod fault;
mod ground;
mod head;
pub mod laws;
mod lists;
mod parts;
mod reader;
mod rows;

use checking::comps_of;
use components::label;
pub use exporting::{ExportFault, export, file_length};
pub use fault::{DbError, DbFault};
use ground::read_ground;
use head::read_head;
use parts::read_parts;
use reader::Reader;
use std::alloc::Global;
use versions::Version;

/// The greatest length of a file that is read, in bytes.
pub const MAX_DB: usize = 268_435_456;

/// The version of which these bytes, at most `MAX_DB`, are the file. It takes memory for the version, and at most 64
/// bytes a cell beside it.
///
/// # Errors
///
/// The first fault in the order of the file, and where all fields are as they have to be the first fault of the rows;
/// or `NoMemory`.
pub fn load_db(alloc: Global, bytes: &[u8]) -> Result<Version, DbError>
    requires { length bytes.now ≤ MAX_DB }
    ensures file { IfOk result (λ version. bytes.now ≡ file_of version) }
    ensures version { IfOk result HasFile }
    ensures fault { IfErr result (IsRefusal bytes.now) }
{
    let mut reader = Reader::of(bytes);
    let head = read_head(&mut reader)?;
    let grid = read_ground(alloc, &mut reader, head)?;
    let labels = label(alloc, &grid)?;
    let parts = read_parts(alloc, &mut reader, head.order, &grid, &labels)?;
    reader.end()?;
    let comps = comps_of(alloc, head.order, parts)?;
    Ok(Version::assemble_labelled(head.prefix, grid, head.order, labels, comps))
}
