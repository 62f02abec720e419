//! Laws of the code that is written and of its runs, each the contract of a function that does nothing.

ghost use Rattle.orcc_top.specs.Laws.{EntriesAreCompiled, GoodJobsReturn};

/// Each function of an image that `asm` writes is what the theorem of runs and that of shared calls ask for: code that runs as
/// the text's function means, with its counts.
pub fn entries_are_compiled()
    ensures { EntriesAreCompiled }
{}

/// A good job whose budget is at least the function's bound on steps returns within that bound under `run`, with the sums and the
/// segments of emulation.
pub fn good_jobs_return()
    ensures { GoodJobsReturn }
{}
