//! What can be wrong with a line.

/// What is wrong with a line of a text.
#[derive(Clone, Copy, Debug, PartialEq, Eq)]
pub enum Fault {
    /// A byte outside 32 to 126 that is no tab.
    BadByte,
    /// A word with a dot in front that names no directive.
    UnknownDirective,
    /// Too few or too many words, or a word that the directive doesn't take.
    WrongWords,
    /// A word that is to be a name and is none.
    BadName,
    /// A word that is to be a number and is none, or is out of its range.
    BadNumber,
    /// A line that needs a function before it.
    NoFunction,
    /// A second variable of one name in a function, a second function of one name, or a second line of a kind that stands once.
    Duplicate,
    /// A word that is no size, or a size that the variable can't have.
    BadSize,
    /// One more than a limit.
    TooMany,
    /// A name of no opcode.
    UnknownOpcode,
    /// A name of the language that is left out.
    Unsupported,
    /// A prefix before a sum, or one that makes an operand longer than 8 bytes.
    BadPrefix,
    /// A name that no earlier line of the function declares.
    UnknownName,
    /// A variable of another size than the operand's size times the prefix.
    SizeMismatch,
    /// A result that is neither a temp nor a dest.
    NotWritable,
    /// A source that is an accumulator.
    NotReadable,
    /// A load's source that is no array, or a store's result that is no dest.
    NotArray,
    /// A shift count or a loadp's source that is no parameter, constant or number.
    NotScalar,
    /// A sum's result that is no accumulator.
    NotAccumulator,
    /// A temp that is read and that no earlier instruction has as a result.
    Unset,
}
