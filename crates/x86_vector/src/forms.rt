//! How a lane of a result comes about.

use crate::width::Width;

/// A function of two lanes of one width.
#[derive(Clone, Copy)]
pub enum LaneFn {
    AddWrap,
    SubWrap,
    AddSigned,
    SubSigned,
    AddUnsigned,
    SubUnsigned,
    Average,
    MinUnsigned,
    MaxUnsigned,
    Equal,
    GreaterSigned,
    MinSigned,
    MaxSigned,
    /// Of the second lane alone.
    Absolute,
}

/// A function of two words.
#[derive(Clone, Copy)]
pub enum WordFn {
    MulLow,
    MulHighSigned,
    MulHighUnsigned,
}

/// A function of the bits of two registers.
#[derive(Clone, Copy)]
pub enum BitFn {
    And,
    Or,
    Xor,
    Andn,
    Second,
}

/// A shift of a lane by a count.
#[derive(Clone, Copy)]
pub enum ShiftFn {
    Left,
    Right,
    RightSigned,
}

/// What a pack makes of a signed lane of twice the width.
#[derive(Clone, Copy)]
pub enum PackFn {
    SignedBytes,
    UnsignedBytes,
    SignedWords,
    UnsignedWords,
}

/// The width of a lane that is extended to twice its width.
#[derive(Clone, Copy)]
pub enum Half {
    Byte,
    Word,
    Doubleword,
}

/// How each lane of a result comes about from the lanes of two registers.
#[derive(Clone, Copy)]
pub enum Form {
    /// A function of the bits.
    Bits(BitFn),
    /// A function of the two lanes at the same place.
    Each(LaneFn, Width),
    /// A function of the two words at the same place.
    Words(WordFn),
    /// The low half of the product of the two doublewords at the same place.
    LowProducts,
    /// The product of the low doublewords of the two quadwords at the same place.
    Products,
    /// The product of the low signed doublewords of the two quadwords at the same place.
    SignedProducts,
    /// A shift by the low quadword of the second register.
    Counted(ShiftFn, Width),
    /// A shift by this count.
    Shifted(ShiftFn, Width, u8),
    /// Lanes of the two registers in turn, from their high halves where this is true.
    Interleaved(Width, bool),
    /// The lanes of the first register and then of the second, each in half its width.
    Packed(PackFn),
    /// The low lanes of the second register at twice their width, with their signs where this is true.
    Extended(Half, bool),
    /// The sum of the distances of eight bytes.
    Distances,
    /// The bytes of the first register, this many places higher.
    BytesUp(u8),
    /// The bytes of the first register, this many places lower.
    BytesDown(u8),
    /// The doublewords of the second register in this order.
    Doublewords(u8),
    /// The low words of the second register in this order, and its high words.
    LowWords(u8),
    /// The low words of the second register, and its high words in this order.
    HighWords(u8),
}
