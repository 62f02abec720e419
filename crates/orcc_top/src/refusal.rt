//! Why an input is refused.
ghost use Rattle.std.specs.Prelude.{◌≡◌, IfOk, Some, string_bytes};
ghost use Rattle.orcc_top.specs.Refusals.{fault_text, text_of, line_of};

use orc_elf::ElfError;
use orc_image::ImageError;
use orc_job::JobError;
use orc_program::Fault;
use std::alloc::{AllocError, Global};
use std::fmt;

/// Why an input is refused.
#[derive(Clone, Copy, Debug, PartialEq, Eq)]
pub enum Refusal {
    /// The input has more bytes than its limit.
    TooLong,
    /// The text has a fault, whose line is counted from 1.
    Text { line: u32, fault: Fault },
    /// The text has an instruction, on a line counted from 1, that needs more values of temps at once than there are places for them.
    Pressure { line: u32, need: u32 },
    /// The input is not one image: its first field that is not all there or not allowed.
    Image(ImageError),
    /// The input begins as an object and is none: its first field that is not all there or not allowed.
    Object(ElfError),
    /// The job is refused, or the function that it calls isn't there or has other counts.
    Job(JobError),
}

/// The name of a fault.
fn name_of(fault: Fault) -> &'static str
    ensures { result.now ≡ fault_text fault }
{
    match fault {
        Fault::BadByte => "BadByte",
        Fault::UnknownDirective => "UnknownDirective",
        Fault::WrongWords => "WrongWords",
        Fault::BadName => "BadName",
        Fault::BadNumber => "BadNumber",
        Fault::NoFunction => "NoFunction",
        Fault::Duplicate => "Duplicate",
        Fault::BadSize => "BadSize",
        Fault::TooMany => "TooMany",
        Fault::UnknownOpcode => "UnknownOpcode",
        Fault::Unsupported => "Unsupported",
        Fault::BadPrefix => "BadPrefix",
        Fault::UnknownName => "UnknownName",
        Fault::SizeMismatch => "SizeMismatch",
        Fault::NotWritable => "NotWritable",
        Fault::NotReadable => "NotReadable",
        Fault::NotArray => "NotArray",
        Fault::NotScalar => "NotScalar",
        Fault::NotAccumulator => "NotAccumulator",
        Fault::Unset => "Unset",
    }
}

impl fmt::Display for Refusal {
    ghost output = { λ refusal. Some (text_of refusal) };

    fn fmt<W: fmt::Write>(&self, f: &mut fmt::Formatter<W>) -> fmt::Result {
        match self {
            Refusal::TooLong => write!(f, "TooLong"),
            Refusal::Text { line, fault } => write!(f, "line {line}: {}", name_of(*fault)),
            Refusal::Pressure { line, need } => write!(f, "line {line}: Pressure {need}"),
            Refusal::Image(ImageError::BadMagic) => write!(f, "image: BadMagic"),
            Refusal::Image(ImageError::BadVersion) => write!(f, "image: BadVersion"),
            Refusal::Image(ImageError::Short { need }) => write!(f, "image: Short {need}"),
            Refusal::Image(ImageError::BadField { at }) => write!(f, "image: BadField {at}"),
            Refusal::Image(ImageError::Memory) => write!(f, "image: Memory"),
            Refusal::Object(ElfError::Short { need }) => write!(f, "elf: Short {need}"),
            Refusal::Object(ElfError::BadField { at }) => write!(f, "elf: BadField {at}"),
            Refusal::Object(ElfError::Memory) => write!(f, "elf: Memory"),
            Refusal::Job(JobError::NotJson) => write!(f, "job: NotJson"),
            Refusal::Job(JobError::Missing { field }) => write!(f, "job: Missing {}", field.name()),
            Refusal::Job(JobError::BadField { field }) => {
                write!(f, "job: BadField {}", field.name())
            }
            Refusal::Job(JobError::TooLarge { field }) => {
                write!(f, "job: TooLarge {}", field.name())
            }
            Refusal::Job(JobError::Overlap) => write!(f, "job: Overlap"),
            Refusal::Job(JobError::Memory) => write!(f, "job: Memory"),
        }
    }
}

/// The line that says why, with its end.
pub fn line_of(alloc: Global, refusal: Refusal) -> Result<String, AllocError>
    ensures { IfOk result (λ line. string_bytes line ≡ line_of refusal) }
{
    format!(in alloc; "{refusal}\n")
}
