//! The top call.
ghost use Rattle.std.specs.Prelude.{◌≡◌, ◌≢◌, ◌⊎◌, List, ℕ, IfSome};
ghost use Rattle.std.specs.Io.KnownBytes.{Appends};
ghost use Rattle.orc_io.specs.Causes.{Rose};
ghost use Rattle.orcc_top.specs.Commands.{spelled, usage_line, IsWrongUsage};
ghost use Rattle.orcc_top.specs.Runs.{IsAsked, IsAccepted, IsRefused, AsksSummary, StopsWithin, GivesOutput, GivesRefusal, CutsOutput, CutsLine};

use crate::answer::{Stop, reply_to};
use crate::command::{command_of, seed_of};
use crate::reply::Reply;
use crate::status::Status;
use crate::summary::summary_of;
use crate::writing::write;
use orc_io::{Sink, Source};
use std::alloc::{AllocError, Global};

const USAGE: &str =
    "usage: orcc asm | c | check | fmt | run | emulate | dis | gen S | jobs W S | obj | asm41 | check41 | header | lib | lib41\n";

/// Does what the words after the program's name ask for, and says how it ended.
///
/// `asm` reads a text of at most 1,048,576 bytes and writes an image. It has an entry for each
/// function of the text, in order, with the function's name and counts and with code of its own: in
/// every good call that code returns within the stated steps, and leaves memory and sums as the
/// function means. There are 74 places for values of temps: a text without a fault is refused
/// exactly where one of its instructions needs more values at once. `asm41` is as `asm`, with code
/// for the target that has instructions of SSSE3 and SSE4.1 too, and with the steps that are stated
/// for it. `obj` is as `asm`, and writes an ELF64 object, which has each function's name and code. `c` reads such a text and writes C:
/// for each function, in order, a function with its name and counts and with its meaning, however
/// many values it needs. `check` reads such a text and writes for each function, in order, a line
/// `NAME need N lanes L cost E`, with the largest number of values of temps that an instruction
/// needs at once and with the cost of a turn; `check41` is as `check`, with the cost for the target of
/// `asm41`. `fmt` reads such a text and writes its canonical text. `dis` reads an image or an
/// object of at most 67,108,864 bytes and writes its listing; an input that begins as an ELF file
/// is an object. `run` reads at most as many bytes, which are an image and a job behind it, places
/// the code of the job's function and the job at fixed addresses, and writes the result of the run,
/// which may say trap or budget. `jobs W S` reads the same, with the sizes of the arrays' elements,
/// cuts the job's call into W parts, and places each with a block, a return word and a frame of its
/// own; it takes turns of the parts, one instruction each, as the seed S draws them, and writes the
/// result, which may say trap or budget. `emulate` reads at most 67,108,864 bytes, which are a text, a line
/// that is exactly `%%`, and a job, and writes the result of the job's emulation, which may say
/// unmapped. Without such a line all is the text, and the job is empty. `gen S` reads nothing: it
/// makes a text of eight functions and a job for each from the number S, runs each function's code
/// on its job where `run` places both, and writes for each a line `gF sum X steps K` with the sum of
/// the dest's elements modulo 2^32 and the steps of the run. All output is built before the first
/// byte is put.
///
/// # Errors
///
/// [`Status`] has each way to end. Refused comes with one line on the notes: `TooLong` where one
/// byte more than the limit was taken; for a text `line N: ` and its first fault, or else, with
/// `asm`, `asm41` or `obj`, `line N: Pressure K` for the first instruction that needs more values of temps
/// at once than there are places, in the first function that has one, where K is how many it needs;
/// for an image `image: ` and its first field that is not all there or not allowed, which bytes
/// behind the image are too; for an object `elf: ` and its first such field; for a job `job: ` and
/// its first fault, of which the last are a function that isn't there and counts of arrays or
/// parameters that are not the function's. A text's fault stands before those of the job behind it.
/// Usage comes exactly where the words are no listed form; nothing is read then. Where such a line
/// cannot be written in whole the end is WriteFault.
#[tactic(auto, using(crate::proofs::Asked::not_both))]
pub fn orcc<S: Source, K: Sink, N: Sink>(
    alloc: Global,
    words: &[String],
    input: &mut S,
    output: &mut K,
    notes: &mut N,
) -> Status
    // Done: the output has grown by the answer to the input, which was read to its end, or, for
    // `gen`, by the summary.
    ensures done { result ≡ Status.Done → ((bytes : List ℕ)
        × GivesOutput (spelled words.now) (S.left input.old) (S.left input.new) bytes
        × Appends (K.held output.old) (K.held output.new) bytes) }
    ensures done_notes { result ≡ Status.Done → notes.new ≡ notes.old }

    // Refused: the notes have grown by the refusal's line.
    ensures refused { result ≡ Status.Refused → ((line : List ℕ)
        × GivesRefusal (spelled words.now) (S.left input.old) (S.left input.new) line
        × Appends (N.held notes.old) (N.held notes.new) line) }
    ensures refused_output { result ≡ Status.Refused → output.new ≡ output.old }

    // Usage: exactly on wrong words, unless the usage line itself fails. Nothing is read.
    ensures usage { result ≡ Status.Usage → IsWrongUsage (spelled words.now) }
    ensures usage_line { result ≡ Status.Usage
        → Appends (N.held notes.old) (N.held notes.new) usage_line }
    ensures usage_output { result ≡ Status.Usage → output.new ≡ output.old }
    ensures wrong_words { IsWrongUsage (spelled words.now)
        → ((result ≡ Status.Usage) ⊎ (result ≡ Status.WriteFault)) }
    ensures wrong_words_input { IsWrongUsage (spelled words.now) → input.new ≡ input.old }

    // ReadFault: only where the input's count rose, before the limit was passed.
    ensures read_fault { result ≡ Status.ReadFault
        → Rose (S.faults input.old) (S.faults input.new) }
    ensures read_fault_taken { result ≡ Status.ReadFault
        → StopsWithin (spelled words.now) (S.left input.old) (S.left input.new) }
    ensures read_fault_untouched { result ≡ Status.ReadFault
        → ((output.new ≡ output.old) × (notes.new ≡ notes.old)) }

    // Memory: before the first put.
    ensures memory_untouched { result ≡ Status.Memory
        → ((output.new ≡ output.old) × (notes.new ≡ notes.old)) }

    // WriteFault: only where the count of the output or of the notes rose. That one has some
    // first bytes of what was to be written, and the other one is untouched.
    ensures write_fault { result ≡ Status.WriteFault
        → (Rose (K.faults output.old) (K.faults output.new)
        ⊎ Rose (N.faults notes.old) (N.faults notes.new)) }
    ensures write_fault_part { result ≡ Status.WriteFault
        → (((notes.new ≡ notes.old)
        × CutsOutput (spelled words.now) (S.left input.old) (S.left input.new)
        (K.faults output.old) (K.faults output.new) (K.held output.old) (K.held output.new))
        ⊎ ((output.new ≡ output.old)
        × CutsLine (spelled words.now) (S.left input.old) (S.left input.new)
        (N.faults notes.old) (N.faults notes.new) (N.held notes.old) (N.held notes.new))) }

    // Where the words ask for a command and no count rose, the run ends as its input asks, or for
    // want of memory: Refused never comes for an input that is accepted, nor Done for another.
    // `asm`, `asm41` and `obj` accept each text within the limit that has no fault and whose instructions
    // need no more values at once than there are places; `c` accepts each that has no fault.
    ensures complete { IsAsked (spelled words.now)
        → (¬ Rose (S.faults input.old) (S.faults input.new))
        → (¬ Rose (K.faults output.old) (K.faults output.new))
        → (¬ Rose (N.faults notes.old) (N.faults notes.new))
        → ((result ≡ Status.Done) ⊎ (result ≡ Status.Refused) ⊎ (result ≡ Status.Memory)) }
    ensures accepted { IfSome (S.left input.old) (λ text.
        IsAccepted (spelled words.now) text → result ≢ Status.Refused) }
    ensures rejected { IfSome (S.left input.old) (λ text.
        IsRefused (spelled words.now) text → result ≢ Status.Done) }

    // A summary reads nothing, and is never refused.
    ensures summary_input { AsksSummary (spelled words.now) → input.new ≡ input.old }
    ensures summary_accepted { AsksSummary (spelled words.now) → result ≢ Status.Refused }
{
    if let Some(seed) = seed_of(words) {
        return match summary_of(alloc, seed) {
            Ok(bytes) => write(output, bytes.as_slice(), Status::Done),
            Err(AllocError) => Status::Memory,
        };
    }
    let Some(command) = command_of(words) else {
        return write(notes, USAGE.as_bytes(), Status::Usage);
    };
    match reply_to(alloc, command, input) {
        Ok(Reply::Output(bytes)) => write(output, bytes.as_slice(), Status::Done),
        Ok(Reply::Refusal(line)) => write(notes, line.as_bytes(), Status::Refused),
        Err(Stop::Read) => Status::ReadFault,
        Err(Stop::Memory) => Status::Memory,
    }
}
