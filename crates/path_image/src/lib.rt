//! The database of a version as an image: one list of words in the caller's memory, from which paths are read.
//!
//! An image is one flat list of 32-bit words that may lie anywhere, as in a file that is mapped, and that any number
//! of threads read at once. [`write_image`] puts the image of a version through a sink. [`Image::over`] looks once at
//! words of whatever source, and from then on paths are read by look-ups alone, one a move, and no memory is taken.
//! The words of an image are told one by one, with an example, where contracts define it (`specs/Images.antt`).
//! (Botea 2011; Strasser, Harabor and Botea 2014)
//!
//! The words of the image of three cells side by side, by their list in `specs/Images.antt`:
//!
//! ```sh
//! printf 'type octile\nheight 1\nwidth 3\nmap\n...\n' >row.map
//! release/pathdb/path_bake row.map | od -An -v -tu4 -w32
//! ```
//!
//! ```text
//!  1752457584 1734438249          1         26          3          1          0          0
//!           3          1          0          1          2         14          3          0
//!           1          2          0          1          3          4          2          6
//!          18          6
//! ```
#![tactic(auto)]

mod checking;
pub mod laws;
mod reading;
mod strides;
mod walking;
mod writing;

pub use checking::ImageFault;
pub use reading::{Home, Image};
pub use strides::ImageWalk;
pub use walking::{PathFault, Step, WalkFault};
pub use writing::{image_words, write_image};

/// The first word of each image: the bytes `path`.
pub const MAGIC_PATH: u32 = 1_752_457_584;

/// The second word of each image: the bytes `imag`.
pub const MAGIC_IMAGE: u32 = 1_734_438_249;

/// The third word of an image: the form of the words behind it.
pub const FORM: u32 = 1;

/// How many words stand before those of the cells.
pub const HEAD: usize = 10;

/// What a high half of a word counts.
pub const HALF: u32 = 65_536;

/// The word of a blocked cell.
pub const BLOCKED: u32 = u32::MAX;
