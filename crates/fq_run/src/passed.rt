//! What running operators take and pass on.
ghost use Rattle.std.specs.Prelude.{◌≡◌};
ghost use Rattle.fq_run.specs.Gathering.{added_stream};
ghost use Rattle.fq_run.specs.RunningOperators.{IsUnder, passed_stream};

use crate::faults::Fault;
use crate::leading_steps::Worked;
use fq_column::{Batch, Schema};
use fq_expr::Piece;

/// Rows, if there are any, and the fault that ends them.
#[derive(Drop)]
pub(crate) struct Passed {
    pub(crate) batch: Option<Batch>,
    pub(crate) fault: Option<Fault>,
}

impl Passed {
    /// What a worked item adds to rows of a schema; a batch of other columns is dropped. No batch has other columns, but that is known only
    /// once the feeds' threads are joined.
    pub(crate) fn from_worked(out: Worked, schema: &Schema) -> Passed
        ensures columns { IsUnder schema.now result.batch }
        ensures stream { passed_stream result ≡ added_stream schema.now out }
    {
        match out {
            Worked::Piece(piece) => Passed::from_piece(piece, schema),
            Worked::Cut(piece, fault) => {
                let Passed {
                    batch,
                    fault: before,
                } = Passed::from_piece(piece, schema);
                Passed {
                    batch,
                    fault: Some(before.unwrap_or(fault.into())),
                }
            }
            Worked::Ended(fault) => Passed {
                batch: None,
                fault: Some(fault.into()),
            },
        }
    }

    // What a piece adds to rows of a schema; a batch of other columns is dropped, as in `from_worked`.
    fn from_piece(piece: Piece, schema: &Schema) -> Passed
        ensures columns { IsUnder schema.now result.batch }
        ensures stream { passed_stream result ≡ added_stream schema.now (Worked.Piece piece) }
    {
        if piece.batch.schema() != schema {
            return Passed {
                batch: None,
                fault: None,
            };
        }
        Passed {
            batch: Some(piece.batch),
            fault: piece.fault.map(Fault::from),
        }
    }
}
