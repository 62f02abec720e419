//! The opcodes, and what the table says of each.

ghost use Rattle.std.specs.Prelude.{◌≡◌};
ghost use Rattle.orc_ops.specs.Table.{row};

use crate::stem::Stem;

/// An operation on the elements of arrays. The letters `b`, `w`, `l` and `q` at the end of a name tell the widths of its
/// operands, 1, 2, 4 and 8 bytes; where there are two of them, the sources' stands before the results'.
#[derive(Clone, Copy, Debug, PartialEq, Eq)]
pub enum Op {
    Absb,
    Absw,
    Absl,
    Addb,
    Addw,
    Addl,
    Addq,
    Addssb,
    Addssw,
    Addssl,
    Addusb,
    Addusw,
    Addusl,
    Andb,
    Andw,
    Andl,
    Andq,
    Orb,
    Orw,
    Orl,
    Orq,
    Xorb,
    Xorw,
    Xorl,
    Xorq,
    Andnb,
    Andnw,
    Andnl,
    Andnq,
    Avgsb,
    Avgsw,
    Avgsl,
    Avgub,
    Avguw,
    Avgul,
    Cmpeqb,
    Cmpeqw,
    Cmpeql,
    Cmpeqq,
    Cmpgtsb,
    Cmpgtsw,
    Cmpgtsl,
    Cmpgtsq,
    Copyb,
    Copyw,
    Copyl,
    Copyq,
    Loadb,
    Loadw,
    Loadl,
    Loadq,
    Loadpb,
    Loadpw,
    Loadpl,
    Loadpq,
    Storeb,
    Storew,
    Storel,
    Storeq,
    Maxsb,
    Maxsw,
    Maxsl,
    Minsb,
    Minsw,
    Minsl,
    Maxub,
    Maxuw,
    Maxul,
    Minub,
    Minuw,
    Minul,
    Mullb,
    Mullw,
    Mulll,
    Mulhsb,
    Mulhsw,
    Mulhsl,
    Mulhub,
    Mulhuw,
    Mulhul,
    Shlb,
    Shlw,
    Shll,
    Shlq,
    Shrsb,
    Shrsw,
    Shrsl,
    Shrsq,
    Shrub,
    Shruw,
    Shrul,
    Shruq,
    Signb,
    Signw,
    Signl,
    Subb,
    Subw,
    Subl,
    Subq,
    Subssb,
    Subssw,
    Subssl,
    Subusb,
    Subusw,
    Subusl,
    Convsbw,
    Convswl,
    Convslq,
    Convubw,
    Convuwl,
    Convulq,
    Splatbw,
    Splatbl,
    Splatw3q,
    Convwb,
    Convlw,
    Convql,
    Select0wb,
    Select0lw,
    Select0ql,
    Convhwb,
    Convhlw,
    Convhql,
    Select1wb,
    Select1lw,
    Select1ql,
    Convssswb,
    Convssslw,
    Convsssql,
    Convsuswb,
    Convsuslw,
    Convsusql,
    Convusswb,
    Convusslw,
    Convussql,
    Convuuswb,
    Convuuslw,
    Convuusql,
    Mulsbw,
    Mulswl,
    Mulslq,
    Mulubw,
    Muluwl,
    Mululq,
    Mergebw,
    Mergewl,
    Mergelq,
    Splitwb,
    Splitlw,
    Splitql,
    Swapw,
    Swapl,
    Swapq,
    Swapwl,
    Swaplq,
    Div255w,
    Divluw,
    Accw,
    Accl,
    Accsadubl,
    Loadoffb,
    Loadoffw,
    Loadoffl,
    Loadupdb,
    Loadupib,
    Ldresnearb,
    Ldresnearl,
    Ldreslinb,
    Ldreslinl,
}

/// What may stand as an opcode's operands.
#[derive(Clone, Copy, Debug, PartialEq, Eq)]
pub enum Kind {
    /// Nothing more is asked of them.
    Plain,
    /// The source is an array.
    Load,
    /// The source is a number that is the same for all elements.
    LoadParam,
    /// The result is an array.
    Store,
    /// The second source is a count of bits, which is a 64-bit number and the same for all elements.
    Shift,
    /// The result is an accumulator, to which the opcode adds.
    Sum,
    /// The first source is an array that is read at other elements too, and the others are numbers that are the same for all
    /// elements.
    Far,
}

/// What the table says of an opcode.
#[derive(Clone, Copy, Debug)]
pub struct OpInfo {
    pub name: &'static str,
    /// The bytes of each result, 0 for one that isn't there.
    pub results: [u8; 2],
    /// The bytes of each source, 0 for one that isn't there. A count has 8, and a far load's scalar has 4.
    pub sources: [u8; 3],
    pub kind: Kind,
    /// The greatest number of SSE2 instructions that compute the opcode on all lanes of a register; 0 of a far load.
    pub class: u8,
}

/// Hands the table to the macro `$rows`. A row is an opcode and, in parentheses, its name, the bytes of its first and second
/// result, the bytes of its three sources, its kind, its class and its stem.
macro_rules! table {
    ($rows:ident $(, $given:ident)*) => {
        $rows! {
            [$($given)*]
            Absb("absb", 1, 0, 1, 0, 0, Plain, 3, Abs)
            Absw("absw", 2, 0, 2, 0, 0, Plain, 3, Abs)
            Absl("absl", 4, 0, 4, 0, 0, Plain, 16, Abs)
            Addb("addb", 1, 0, 1, 1, 0, Plain, 3, Add)
            Addw("addw", 2, 0, 2, 2, 0, Plain, 3, Add)
            Addl("addl", 4, 0, 4, 4, 0, Plain, 3, Add)
            Addq("addq", 8, 0, 8, 8, 0, Plain, 3, Add)
            Addssb("addssb", 1, 0, 1, 1, 0, Plain, 3, Addss)
            Addssw("addssw", 2, 0, 2, 2, 0, Plain, 3, Addss)
            Addssl("addssl", 4, 0, 4, 4, 0, Plain, 24, Addss)
            Addusb("addusb", 1, 0, 1, 1, 0, Plain, 3, Addus)
            Addusw("addusw", 2, 0, 2, 2, 0, Plain, 3, Addus)
            Addusl("addusl", 4, 0, 4, 4, 0, Plain, 24, Addus)
            Andb("andb", 1, 0, 1, 1, 0, Plain, 3, And)
            Andw("andw", 2, 0, 2, 2, 0, Plain, 3, And)
            Andl("andl", 4, 0, 4, 4, 0, Plain, 3, And)
            Andq("andq", 8, 0, 8, 8, 0, Plain, 3, And)
            Orb("orb", 1, 0, 1, 1, 0, Plain, 3, Or)
            Orw("orw", 2, 0, 2, 2, 0, Plain, 3, Or)
            Orl("orl", 4, 0, 4, 4, 0, Plain, 3, Or)
            Orq("orq", 8, 0, 8, 8, 0, Plain, 3, Or)
            Xorb("xorb", 1, 0, 1, 1, 0, Plain, 3, Xor)
            Xorw("xorw", 2, 0, 2, 2, 0, Plain, 3, Xor)
            Xorl("xorl", 4, 0, 4, 4, 0, Plain, 3, Xor)
            Xorq("xorq", 8, 0, 8, 8, 0, Plain, 3, Xor)
            Andnb("andnb", 1, 0, 1, 1, 0, Plain, 3, Andn)
            Andnw("andnw", 2, 0, 2, 2, 0, Plain, 3, Andn)
            Andnl("andnl", 4, 0, 4, 4, 0, Plain, 3, Andn)
            Andnq("andnq", 8, 0, 8, 8, 0, Plain, 3, Andn)
            Avgsb("avgsb", 1, 0, 1, 1, 0, Plain, 16, Avgs)
            Avgsw("avgsw", 2, 0, 2, 2, 0, Plain, 16, Avgs)
            Avgsl("avgsl", 4, 0, 4, 4, 0, Plain, 16, Avgs)
            Avgub("avgub", 1, 0, 1, 1, 0, Plain, 3, Avgu)
            Avguw("avguw", 2, 0, 2, 2, 0, Plain, 3, Avgu)
            Avgul("avgul", 4, 0, 4, 4, 0, Plain, 16, Avgu)
            Cmpeqb("cmpeqb", 1, 0, 1, 1, 0, Plain, 3, Cmpeq)
            Cmpeqw("cmpeqw", 2, 0, 2, 2, 0, Plain, 3, Cmpeq)
            Cmpeql("cmpeql", 4, 0, 4, 4, 0, Plain, 3, Cmpeq)
            Cmpeqq("cmpeqq", 8, 0, 8, 8, 0, Plain, 3, Cmpeq)
            Cmpgtsb("cmpgtsb", 1, 0, 1, 1, 0, Plain, 3, Cmpgts)
            Cmpgtsw("cmpgtsw", 2, 0, 2, 2, 0, Plain, 3, Cmpgts)
            Cmpgtsl("cmpgtsl", 4, 0, 4, 4, 0, Plain, 3, Cmpgts)
            Cmpgtsq("cmpgtsq", 8, 0, 8, 8, 0, Plain, 24, Cmpgts)
            Copyb("copyb", 1, 0, 1, 0, 0, Plain, 3, Copy)
            Copyw("copyw", 2, 0, 2, 0, 0, Plain, 3, Copy)
            Copyl("copyl", 4, 0, 4, 0, 0, Plain, 3, Copy)
            Copyq("copyq", 8, 0, 8, 0, 0, Plain, 3, Copy)
            Loadb("loadb", 1, 0, 1, 0, 0, Load, 3, Copy)
            Loadw("loadw", 2, 0, 2, 0, 0, Load, 3, Copy)
            Loadl("loadl", 4, 0, 4, 0, 0, Load, 3, Copy)
            Loadq("loadq", 8, 0, 8, 0, 0, Load, 3, Copy)
            Loadpb("loadpb", 1, 0, 1, 0, 0, LoadParam, 3, Copy)
            Loadpw("loadpw", 2, 0, 2, 0, 0, LoadParam, 3, Copy)
            Loadpl("loadpl", 4, 0, 4, 0, 0, LoadParam, 3, Copy)
            Loadpq("loadpq", 8, 0, 8, 0, 0, LoadParam, 3, Copy)
            Storeb("storeb", 1, 0, 1, 0, 0, Store, 3, Copy)
            Storew("storew", 2, 0, 2, 0, 0, Store, 3, Copy)
            Storel("storel", 4, 0, 4, 0, 0, Store, 3, Copy)
            Storeq("storeq", 8, 0, 8, 0, 0, Store, 3, Copy)
            Maxsb("maxsb", 1, 0, 1, 1, 0, Plain, 16, Maxs)
            Maxsw("maxsw", 2, 0, 2, 2, 0, Plain, 3, Maxs)
            Maxsl("maxsl", 4, 0, 4, 4, 0, Plain, 16, Maxs)
            Minsb("minsb", 1, 0, 1, 1, 0, Plain, 16, Mins)
            Minsw("minsw", 2, 0, 2, 2, 0, Plain, 3, Mins)
            Minsl("minsl", 4, 0, 4, 4, 0, Plain, 16, Mins)
            Maxub("maxub", 1, 0, 1, 1, 0, Plain, 3, Maxu)
            Maxuw("maxuw", 2, 0, 2, 2, 0, Plain, 3, Maxu)
            Maxul("maxul", 4, 0, 4, 4, 0, Plain, 16, Maxu)
            Minub("minub", 1, 0, 1, 1, 0, Plain, 3, Minu)
            Minuw("minuw", 2, 0, 2, 2, 0, Plain, 3, Minu)
            Minul("minul", 4, 0, 4, 4, 0, Plain, 16, Minu)
            Mullb("mullb", 1, 0, 1, 1, 0, Plain, 16, Mull)
            Mullw("mullw", 2, 0, 2, 2, 0, Plain, 3, Mull)
            Mulll("mulll", 4, 0, 4, 4, 0, Plain, 16, Mull)
            Mulhsb("mulhsb", 1, 0, 1, 1, 0, Plain, 24, Mulhs)
            Mulhsw("mulhsw", 2, 0, 2, 2, 0, Plain, 3, Mulhs)
            Mulhsl("mulhsl", 4, 0, 4, 4, 0, Plain, 24, Mulhs)
            Mulhub("mulhub", 1, 0, 1, 1, 0, Plain, 24, Mulhu)
            Mulhuw("mulhuw", 2, 0, 2, 2, 0, Plain, 3, Mulhu)
            Mulhul("mulhul", 4, 0, 4, 4, 0, Plain, 24, Mulhu)
            Shlb("shlb", 1, 0, 1, 8, 0, Shift, 16, Shl)
            Shlw("shlw", 2, 0, 2, 8, 0, Shift, 3, Shl)
            Shll("shll", 4, 0, 4, 8, 0, Shift, 3, Shl)
            Shlq("shlq", 8, 0, 8, 8, 0, Shift, 3, Shl)
            Shrsb("shrsb", 1, 0, 1, 8, 0, Shift, 16, Shrs)
            Shrsw("shrsw", 2, 0, 2, 8, 0, Shift, 3, Shrs)
            Shrsl("shrsl", 4, 0, 4, 8, 0, Shift, 3, Shrs)
            Shrsq("shrsq", 8, 0, 8, 8, 0, Shift, 16, Shrs)
            Shrub("shrub", 1, 0, 1, 8, 0, Shift, 16, Shru)
            Shruw("shruw", 2, 0, 2, 8, 0, Shift, 3, Shru)
            Shrul("shrul", 4, 0, 4, 8, 0, Shift, 3, Shru)
            Shruq("shruq", 8, 0, 8, 8, 0, Shift, 3, Shru)
            Signb("signb", 1, 0, 1, 0, 0, Plain, 16, Sign)
            Signw("signw", 2, 0, 2, 0, 0, Plain, 16, Sign)
            Signl("signl", 4, 0, 4, 0, 0, Plain, 16, Sign)
            Subb("subb", 1, 0, 1, 1, 0, Plain, 3, Sub)
            Subw("subw", 2, 0, 2, 2, 0, Plain, 3, Sub)
            Subl("subl", 4, 0, 4, 4, 0, Plain, 3, Sub)
            Subq("subq", 8, 0, 8, 8, 0, Plain, 3, Sub)
            Subssb("subssb", 1, 0, 1, 1, 0, Plain, 3, Subss)
            Subssw("subssw", 2, 0, 2, 2, 0, Plain, 3, Subss)
            Subssl("subssl", 4, 0, 4, 4, 0, Plain, 24, Subss)
            Subusb("subusb", 1, 0, 1, 1, 0, Plain, 3, Subus)
            Subusw("subusw", 2, 0, 2, 2, 0, Plain, 3, Subus)
            Subusl("subusl", 4, 0, 4, 4, 0, Plain, 24, Subus)
            Convsbw("convsbw", 2, 0, 1, 0, 0, Plain, 3, Convs)
            Convswl("convswl", 4, 0, 2, 0, 0, Plain, 3, Convs)
            Convslq("convslq", 8, 0, 4, 0, 0, Plain, 3, Convs)
            Convubw("convubw", 2, 0, 1, 0, 0, Plain, 3, Copy)
            Convuwl("convuwl", 4, 0, 2, 0, 0, Plain, 3, Copy)
            Convulq("convulq", 8, 0, 4, 0, 0, Plain, 3, Copy)
            Splatbw("splatbw", 2, 0, 1, 0, 0, Plain, 3, Splat)
            Splatbl("splatbl", 4, 0, 1, 0, 0, Plain, 3, Splat)
            Splatw3q("splatw3q", 8, 0, 8, 0, 0, Plain, 3, Splatw3)
            Convwb("convwb", 1, 0, 2, 0, 0, Plain, 3, Low)
            Convlw("convlw", 2, 0, 4, 0, 0, Plain, 3, Low)
            Convql("convql", 4, 0, 8, 0, 0, Plain, 3, Low)
            Select0wb("select0wb", 1, 0, 2, 0, 0, Plain, 3, Low)
            Select0lw("select0lw", 2, 0, 4, 0, 0, Plain, 3, Low)
            Select0ql("select0ql", 4, 0, 8, 0, 0, Plain, 3, Low)
            Convhwb("convhwb", 1, 0, 2, 0, 0, Plain, 3, High)
            Convhlw("convhlw", 2, 0, 4, 0, 0, Plain, 3, High)
            Convhql("convhql", 4, 0, 8, 0, 0, Plain, 3, High)
            Select1wb("select1wb", 1, 0, 2, 0, 0, Plain, 3, High)
            Select1lw("select1lw", 2, 0, 4, 0, 0, Plain, 3, High)
            Select1ql("select1ql", 4, 0, 8, 0, 0, Plain, 3, High)
            Convssswb("convssswb", 1, 0, 2, 0, 0, Plain, 3, Convsss)
            Convssslw("convssslw", 2, 0, 4, 0, 0, Plain, 3, Convsss)
            Convsssql("convsssql", 4, 0, 8, 0, 0, Plain, 24, Convsss)
            Convsuswb("convsuswb", 1, 0, 2, 0, 0, Plain, 3, Convsus)
            Convsuslw("convsuslw", 2, 0, 4, 0, 0, Plain, 16, Convsus)
            Convsusql("convsusql", 4, 0, 8, 0, 0, Plain, 24, Convsus)
            Convusswb("convusswb", 1, 0, 2, 0, 0, Plain, 16, Convuss)
            Convusslw("convusslw", 2, 0, 4, 0, 0, Plain, 16, Convuss)
            Convussql("convussql", 4, 0, 8, 0, 0, Plain, 24, Convuss)
            Convuuswb("convuuswb", 1, 0, 2, 0, 0, Plain, 16, Convuus)
            Convuuslw("convuuslw", 2, 0, 4, 0, 0, Plain, 16, Convuus)
            Convuusql("convuusql", 4, 0, 8, 0, 0, Plain, 24, Convuus)
            Mulsbw("mulsbw", 2, 0, 1, 1, 0, Plain, 16, Muls)
            Mulswl("mulswl", 4, 0, 2, 2, 0, Plain, 16, Muls)
            Mulslq("mulslq", 8, 0, 4, 4, 0, Plain, 24, Muls)
            Mulubw("mulubw", 2, 0, 1, 1, 0, Plain, 16, Mulu)
            Muluwl("muluwl", 4, 0, 2, 2, 0, Plain, 16, Mulu)
            Mululq("mululq", 8, 0, 4, 4, 0, Plain, 16, Mulu)
            Mergebw("mergebw", 2, 0, 1, 1, 0, Plain, 3, Merge)
            Mergewl("mergewl", 4, 0, 2, 2, 0, Plain, 3, Merge)
            Mergelq("mergelq", 8, 0, 4, 4, 0, Plain, 3, Merge)
            Splitwb("splitwb", 1, 1, 2, 0, 0, Plain, 16, Split)
            Splitlw("splitlw", 2, 2, 4, 0, 0, Plain, 16, Split)
            Splitql("splitql", 4, 4, 8, 0, 0, Plain, 16, Split)
            Swapw("swapw", 2, 0, 2, 0, 0, Plain, 16, Swap)
            Swapl("swapl", 4, 0, 4, 0, 0, Plain, 16, Swap)
            Swapq("swapq", 8, 0, 8, 0, 0, Plain, 16, Swap)
            Swapwl("swapwl", 4, 0, 4, 0, 0, Plain, 16, Exchange)
            Swaplq("swaplq", 8, 0, 8, 0, 0, Plain, 3, Exchange)
            Div255w("div255w", 2, 0, 2, 0, 0, Plain, 16, Div255)
            Divluw("divluw", 2, 0, 2, 2, 0, Plain, 100, Divlu)
            Accw("accw", 2, 0, 2, 0, 0, Sum, 16, Copy)
            Accl("accl", 4, 0, 4, 0, 0, Sum, 16, Copy)
            Accsadubl("accsadubl", 4, 0, 1, 1, 0, Sum, 16, Accsad)
            Loadoffb("loadoffb", 1, 0, 1, 4, 0, Far, 0, Copy)
            Loadoffw("loadoffw", 2, 0, 2, 4, 0, Far, 0, Copy)
            Loadoffl("loadoffl", 4, 0, 4, 4, 0, Far, 0, Copy)
            Loadupdb("loadupdb", 1, 0, 1, 0, 0, Far, 0, Copy)
            Loadupib("loadupib", 1, 0, 1, 0, 0, Far, 0, Copy)
            Ldresnearb("ldresnearb", 1, 0, 1, 4, 4, Far, 0, Copy)
            Ldresnearl("ldresnearl", 4, 0, 4, 4, 4, Far, 0, Copy)
            Ldreslinb("ldreslinb", 1, 0, 1, 4, 4, Far, 0, Copy)
            Ldreslinl("ldreslinl", 4, 0, 4, 4, 4, Far, 0, Copy)
        }
    };
}

/// The opcodes, in the table's order.
macro_rules! list {
    ([] $($op:ident $row:tt)*) => {
        [$(Op::$op),*]
    };
}

/// One column of the table at an opcode.
macro_rules! column {
    ([$at:ident $column:ident] $($op:ident $row:tt)*) => {
        match $at {
            $(Op::$op => $column! $row,)*
        }
    };
}

macro_rules! name_column {
    ($name:literal, $first:literal, $second:literal, $a:literal, $b:literal, $c:literal, $kind:ident, $class:literal, $stem:ident) => {
        $name
    };
}

macro_rules! results_column {
    ($name:literal, $first:literal, $second:literal, $a:literal, $b:literal, $c:literal, $kind:ident, $class:literal, $stem:ident) => {
        [$first, $second]
    };
}

macro_rules! sources_column {
    ($name:literal, $first:literal, $second:literal, $a:literal, $b:literal, $c:literal, $kind:ident, $class:literal, $stem:ident) => {
        [$a, $b, $c]
    };
}

macro_rules! kind_column {
    ($name:literal, $first:literal, $second:literal, $a:literal, $b:literal, $c:literal, $kind:ident, $class:literal, $stem:ident) => {
        Kind::$kind
    };
}

macro_rules! class_column {
    ($name:literal, $first:literal, $second:literal, $a:literal, $b:literal, $c:literal, $kind:ident, $class:literal, $stem:ident) => {
        $class
    };
}

macro_rules! stem_column {
    ($name:literal, $first:literal, $second:literal, $a:literal, $b:literal, $c:literal, $kind:ident, $class:literal, $stem:ident) => {
        Stem::$stem
    };
}

/// Every opcode.
pub(crate) static ALL: [Op; 169] = table!(list);

/// The name of an opcode.
pub fn name(op: Op) -> &'static str
    ensures { result.now ≡ (row op).name }
{
    table!(column, op, name_column)
}

/// The bytes of each result of an opcode, 0 for one that isn't there.
pub fn results(op: Op) -> [u8; 2]
    ensures { result ≡ (row op).results }
{
    table!(column, op, results_column)
}

/// The bytes of each source of an opcode, 0 for one that isn't there. A count has 8, and a far load's scalar has 4.
pub fn sources(op: Op) -> [u8; 3]
    ensures { result ≡ (row op).sources }
{
    table!(column, op, sources_column)
}

/// The kind of an opcode.
pub fn kind_of(op: Op) -> Kind
    ensures { result ≡ (row op).kind }
{
    table!(column, op, kind_column)
}

/// The class of an opcode.
fn class(op: Op) -> u8
    ensures { result ≡ (row op).class }
{
    table!(column, op, class_column)
}

/// The stem of an opcode: the family of opcodes with its formula. A far load has no formula, so its stem says nothing.
pub fn stem_of(op: Op) -> Stem
    ensures { result ≡ (row op).stem }
{
    table!(column, op, stem_column)
}

/// What the table says of an opcode.
pub fn info(op: Op) -> OpInfo
    ensures name { result.name.now ≡ (row op).name }
    ensures results { result.results ≡ (row op).results }
    ensures sources { result.sources ≡ (row op).sources }
    ensures kind { result.kind ≡ (row op).kind }
    ensures class { result.class ≡ (row op).class }
{
    OpInfo {
        name: name(op),
        results: results(op),
        sources: sources(op),
        kind: kind_of(op),
        class: class(op),
    }
}
