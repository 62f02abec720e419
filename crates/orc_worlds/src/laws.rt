//! Laws of jobs where they are placed to be run.

ghost use Rattle.orc_worlds.specs.Copying.{CopiesInParts};
ghost use Rattle.orc_worlds.specs.GoodJobs.{GoodJobsReturn, GoodJobsSeparate, MakesGoodCall, OneRowIsApart};

/// The law of good jobs: on code that runs as a function of the language means, a job whose arrays are good and have all bytes
/// of its segments makes a good call where it is placed. Where its budget is at least the function's bound on steps, each run
/// of it returns within that bound, and leaves the bytes and the sums that emulation of the job leaves.
pub fn good_jobs_return()
    ensures call { MakesGoodCall }
    ensures returns { GoodJobsReturn }
{}

/// The law of good jobs in parts: on compiled code the parts of a good job are separate, whatever their number, if no row writes
/// into another and each part meets the facts of the function. Without rows the first is always so. What is asked of separate
/// parts is met: by a job that copies two bytes in two parts.
pub fn good_jobs_separate()
    ensures separate { GoodJobsSeparate }
    ensures one_row { OneRowIsApart }
    ensures met { CopiesInParts }
{}
