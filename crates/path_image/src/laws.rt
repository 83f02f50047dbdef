//! Laws of images, for proofs. None of these functions does anything: each one's contract is a law.

ghost use Rattle.path_image.specs.Examples.{three_cells, three_cells_words};
ghost use Rattle.path_image.specs.Images.{IsImageOf};

/// The image of the map `...`, word by word.
pub fn three_cells_are_these_words()
    ensures { IsImageOf three_cells_words three_cells }
{}
