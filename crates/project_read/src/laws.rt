//! Laws of numbers and of the files of a design.

ghost use Rattle.project_read.specs.Laws.{FilesAreOneProject, NumbersAreGivenOnce};
ghost use Rattle.project_read.specs.Sample.{NumbersAreSo};

/// A law: a file has one number, which it keeps, however often it is imported. Computes nothing.
pub fn numbers_are_given_once()
    ensures { NumbersAreGivenOnce }
{}

/// A law: the files of a design are one list of sources, or are refused for one cause. Computes nothing.
pub fn files_are_one_project()
    ensures { FilesAreOneProject }
{}

/// Names and numbers, by the definitions. Computes nothing.
pub fn numbers_are_so()
    ensures { NumbersAreSo }
{}
