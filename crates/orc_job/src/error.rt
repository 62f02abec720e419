//! Why a text is refused as a job.

/// A field of a job, in the order of checks.
#[derive(Clone, Copy, Debug, PartialEq, Eq)]
pub enum Field {
    /// The name of the function that is called.
    Function,
    /// The number of elements in a row.
    N,
    /// The number of rows.
    M,
    /// Where the arrays lie.
    Arrays,
    /// The numbers of the parameters.
    Params,
    /// The segments of memory.
    Memory,
    /// The most steps that are done.
    Budget,
}

impl Field {
    ghost use Rattle.std.specs.Prelude.{◌≡◌};
    ghost use Rattle.orc_job.specs.Fields.{name_of};

    /// The field's key in the JSON object, which messages show too.
    pub fn name(self) -> &'static str
        ensures { result.now ≡ name_of self }
    {
        match self {
            Field::Function => "function",
            Field::N => "n",
            Field::M => "m",
            Field::Arrays => "arrays",
            Field::Params => "params",
            Field::Memory => "memory",
            Field::Budget => "budget",
        }
    }
}

/// Why a text says no job.
#[derive(Clone, Copy, Debug, PartialEq, Eq)]
pub enum JobError {
    /// The bytes are no JSON text.
    NotJson,
    /// A field isn't there.
    Missing {
        /// The first such field.
        field: Field,
    },
    /// A field has another form.
    BadField {
        /// The first such field.
        field: Field,
    },
    /// A limit is passed.
    TooLarge {
        /// The field whose limit it is: `m` for the product of `n` and `m`, `memory` for the bytes of all segments.
        field: Field,
    },
    /// Two segments share a byte.
    Overlap,
    /// There was not enough memory.
    Memory,
}
