//! Laws of all declarations and directories, by the definitions only.

ghost use Rattle.cells.specs.Apart.{ArraysLieApart, ArraysPreserved, NamedArraysAreThere};
ghost use Rattle.cells.specs.Apart.{NumberedArraysAreNamed, QuotasAreWide};
ghost use Rattle.cells.specs.OneWay.{DeclareOneWay, KeepsDirectory, KeepsNames};

/// Law: declaring an array in a directory has one result, and the directory stays a directory.
pub fn declares_one_way()
    ensures one_way { DeclareOneWay }
    ensures names { KeepsNames }
    ensures directory { KeepsDirectory }
{}

/// Law: two arrays of a directory that share a cell are equal, and each cell of an array with a
/// quota has 64 bits.
pub fn arrays_lie_apart()
    ensures apart { ArraysLieApart }
    ensures wide { QuotasAreWide }
{}

/// Law: the arrays of a directory are those that it has by name, and each longer directory also has
/// them.
pub fn arrays_preserved()
    ensures there { NamedArraysAreThere }
    ensures numbered { NumberedArraysAreNamed }
    ensures stay { ArraysPreserved }
{}
