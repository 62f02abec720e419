//! Laws of parts of a call, each the contract of a function that does nothing.

ghost use Rattle.orc_program.specs.Program.{FunctionValue};
ghost use Rattle.orc_program.specs.declared.call.Call.{Call};
ghost use Rattle.orc_parts.specs.DrawnParts.{DrawnPartsEnd};
ghost use Rattle.orc_parts.specs.Even.{EvenCuts};

/// Drawn turns of the parts of a call, with a budget of as many turns as the parts' steps together, do the whole call.
pub fn drawn_parts_end()
    ensures { DrawnPartsEnd }
{}

/// Parts of about one size, by elements or by rows, cut a call.
pub fn even_cuts()
    ensures { (f : FunctionValue) (call : Call) → EvenCuts f call }
{}
