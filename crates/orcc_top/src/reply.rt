//! What is to be written.

/// What is to be written. It is whole before the first byte is put.
#[derive(Debug, Drop)]
pub enum Reply {
    /// The bytes of the output.
    Output(Vec<u8>),
    /// The line of a refusal, for the notes.
    Refusal(String),
}
