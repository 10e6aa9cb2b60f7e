//! Left batches on their way through a join, part by part.
ghost use Rattle.std.specs.Prelude.{◌≡◌};
ghost use Rattle.fq_ops.specs.Join.{join_rows};
ghost use Rattle.fq_ops.specs.Probing.{rows_left};
ghost use Rattle.fq_ops.specs.Table.{Table};

use crate::joins::How;
use fq_column::Batch;

/// A left batch whose rows have given some of their output, or none yet.
#[derive(Drop)]
pub struct Probe {
    pub(crate) left: Batch,
    pub(crate) how: How,
    pub(crate) from: Cursor,
}

/// Where the output of left rows goes on.
#[derive(Clone, Copy)]
pub(crate) struct Cursor {
    /// The left row.
    pub(crate) row: usize,
    /// How many rows of its output were given.
    pub(crate) given: usize,
    /// How many rows this left row and those after it may give in all.
    pub(crate) room: u64,
}

/// How the pairs of left rows go on after some of them.
#[derive(Clone, Copy)]
pub(crate) enum Next {
    /// With those from here on.
    At(Cursor),
    /// There are no others, but for those of the left row at this place, which would pass the room.
    End(Option<usize>),
}

/// Rows that a left batch gives, and what comes after them.
#[derive(Drop)]
pub struct Part {
    /// The rows.
    pub batch: Batch,
    /// What comes after them.
    pub rest: Rest,
}

/// What comes after some of the rows that a left batch gives.
#[derive(Drop)]
pub enum Rest {
    /// There may be more of them.
    More(Probe),
    /// There are no others, but for those of the left row at this place, whose output would pass the room.
    End(Option<usize>),
}

impl Probe {
    /// A left batch of which nothing was given, whose rows may give so many.
    pub fn new(left: Batch, how: How, room: u64) -> Probe
        ensures parts { (result.left ≡ left) × (result.how ≡ how) × (result.from ≡ record { row = 0; given = 0; room = room }) }
        ensures all { (t : Table) → rows_left t result ≡ join_rows how t.nulls_equal left.fields t.fields t.on t.rows room left.rows }
    {
        Probe {
            left,
            how,
            from: Cursor {
                row: 0,
                given: 0,
                room,
            },
        }
    }
}
