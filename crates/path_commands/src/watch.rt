//! Reports on a run while it goes on.

use build_pool::Gate;

/// A gate that is also told how far a run is, and remarks that do not belong on the output. Its contracts promise
/// nothing.
pub trait Watch: Gate {
    /// Called when the build of the first version begins, with its number of rows. The gate hears of each row as it is
    /// built.
    fn begin(&self, _rows: u32) {}

    /// Called when that version is built, or memory ran out.
    fn end(&self) {}

    /// Called with remarks on the output, each line ended by a line feed.
    fn remark(&self, _lines: String) {}
}
