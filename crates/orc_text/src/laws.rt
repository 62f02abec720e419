//! Laws of texts, each the contract of a function that does nothing.

ghost use Rattle.orc_text.specs.Segments.{ReadsAreSegments, SaysOne};
ghost use Rattle.orc_text.specs.FirstFault.{ChecksLook, LeastLineFaults, OneFault};

/// The program of a text without a fault is what the text's segments say.
pub fn reads_are_segments()
    ensures { ReadsAreSegments }
{}

/// Lines say at most one program.
pub fn says_one()
    ensures { SaysOne }
{}

/// The first fault of a text is that of the least line that has one, after the lines before it.
pub fn least_line_faults()
    ensures { LeastLineFaults }
{}

/// A line has one fault or none, after the lines before it.
pub fn one_fault()
    ensures { OneFault }
{}

/// What the checks of a line look at is what the lines before it say.
pub fn checks_look()
    ensures { ChecksLook }
{}
