//! Laws of the files of versions. None of these functions does anything but cite another law: each one's contract is a law.

ghost use Rattle.path_file.specs.Files.{FileOfThreeCells};
ghost use Rattle.path_file.specs.Laws.{FilesAreOfOneVersion, FilesOfVersionsHaveNoFault};

use row_check::laws::right_rows_have_no_fault;

/// The file of a version has no fault, so that it is read as this version, if memory does not run out.
pub fn files_of_versions_have_no_fault()
    ensures { FilesOfVersionsHaveNoFault }
{
    right_rows_have_no_fault();
}

/// Two versions with one file are one.
pub fn files_are_of_one_version()
    ensures { FilesAreOfOneVersion }
{}

/// The file of the map `...`, byte by byte.
pub fn file_of_three_cells()
    ensures { FileOfThreeCells }
{}
