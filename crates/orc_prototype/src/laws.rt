//! Laws of the list of arguments, each the contract of a function that does nothing.

ghost use Rattle.orc_prototype.specs.declared.arguments.Shape.{Shape};
ghost use Rattle.orc_prototype.specs.Laws.{AreCounted, AreNumbered};

/// There are as many arguments as [`argument_count`](crate::argument_count) says.
pub fn are_counted()
    ensures { (s : Shape) → AreCounted s }
{}

/// Each argument stands where its number says.
pub fn are_numbered()
    ensures { (s : Shape) → AreNumbered s }
{}
