//! Aggregates of a group.
ghost use Rattle.std.specs.Prelude.{◌≡◌};
ghost use Rattle.fq_ops.specs.Aggregate.{kind_over};
ghost use Rattle.fq_ops.specs.Parts.{over_parts};

use fq_column::{Kind, StepFault};

/// What an aggregate makes of the cells of a column in a group.
#[derive(Clone, Copy, Debug, PartialEq, Eq)]
pub enum Function {
    /// The sum of the whole numbers; nulls are skipped, and it is 0 if there is no value.
    Sum,
    /// The least value; nulls are skipped, and it is null if there is no value.
    Min,
    /// The greatest value; nulls are skipped, and it is null if there is no value.
    Max,
    /// The number of values that are not null.
    Count,
    /// The number of cells, null or not.
    Len,
    /// The first row's cell, null included.
    First,
    /// The last row's cell, null included.
    Last,
    /// The number of distinct values, null counted as one.
    NUnique,
}

impl Function {
    /// The kind of its value over a column of this kind. `WrongKind` for a sum of what is not a whole number.
    pub fn kind_over(self, kind: Kind) -> Result<Kind, StepFault>
        ensures { result ≡ kind_over self kind }
    {
        match self {
            Function::Sum => match kind {
                Kind::Whole => Ok(Kind::Whole),
                _ => Err(StepFault::WrongKind),
            },
            Function::Count | Function::Len | Function::NUnique => Ok(Kind::Whole),
            Function::Min | Function::Max | Function::First | Function::Last => Ok(kind),
        }
    }

    /// The function that makes of its values over parts of a group, in order, its value over the whole group; `None` for the number
    /// of distinct values, which those of the parts do not tell. See [`groups_of_parts`](crate::groups_of_parts).
    pub fn over_parts(self) -> Option<Function>
        ensures { result ≡ over_parts self }
    {
        match self {
            Function::Sum | Function::Count | Function::Len => Some(Function::Sum),
            Function::Min | Function::Max | Function::First | Function::Last => Some(self),
            Function::NUnique => None,
        }
    }
}

/// An aggregate of a group.
#[derive(Debug, Drop)]
pub enum What {
    /// The number of rows.
    Len,
    /// What a function makes of the cells of the column with this name.
    Of(Function, String),
}

/// An aggregate and the name of its output.
#[derive(Debug, Drop)]
pub struct Agg {
    /// The name of the output.
    pub name: String,
    /// The aggregate.
    pub what: What,
}
