//! A join that runs.
ghost use Rattle.std.specs.Prelude.{◌≡◌, List, [], None, map, option_map, string_bytes, IfOk, IsOk};
ghost use Rattle.fq_column.specs.Frame.{Fields, Frame, Row};
ghost use Rattle.fq_run.specs.Transforms.{Transform, join_transform};
ghost use Rattle.fq_ops.specs.Join.{join_schema};
ghost use Rattle.fq_run.specs.RunningOperators.{HasJoined, HasTaken, IsGiving, Makes};
ghost use Rattle.fq_run.specs.declared.faults.Fault.TheVariants as fault;
ghost use Rattle.fq_run.specs.declared.operators.RunningOperator.TheVariants as running;

use crate::faults::Fault;
use crate::operators::Made;
use crate::passed::Passed;
use fq_column::{Batch, Memory, copy_strings};
use fq_ops::{How, JoinTable, Part, Probe, Rest};
use std::alloc::Global;

/// The most rows that a join makes at once, whatever the matches: as many as the largest batch has.
const ROWS_OF_A_PART: usize = 65_536;

/// The most rows that a join gives.
pub const MAX_JOINED_ROWS: u64 = 4_294_967_295;

/// A join with the rows of a source before the last.
#[derive(Drop)]
pub struct Join {
    /// The source, counted from 0.
    pub source: usize,
    /// The names of the key columns.
    pub on: Vec<String>,
    /// What a left row gives.
    pub how: How,
    /// Whether null matches null.
    pub nulls_equal: bool,
}

/// A join with a table, and how many rows it may still give.
#[derive(Drop)]
pub(crate) struct Joining {
    pub(crate) number: u16,
    pub(crate) table: JoinTable,
    pub(crate) how: How,
    pub(crate) room: u64,
}

impl Joining {
    /// A join with the rows of its source, which it keeps with no copy. It has taken no row, and has room for all rows that a join
    /// gives.
    pub(crate) fn new(
        alloc: Global,
        number: u16,
        right: Batch,
        join: &Join,
    ) -> Result<Joining, Memory>
        requires { (left : Fields) × IsOk (join_schema join.now.how left right.fields (map string_bytes join.now.on.items)) }
        ensures { IfOk result (λ j. (left : Fields) → IsOk (join_schema join.now.how left right.fields (map string_bytes join.now.on.items)) →
            HasJoined j (join_transform number join.now.how (record { fields = right.fields; rows = right.rows; on = map string_bytes join.now.on.items; nulls_equal = join.now.nulls_equal }) left) []) }
    {
        let on = copy_strings(alloc, join.on.as_slice())?;
        Ok(Joining {
            number,
            table: JoinTable::build_from(alloc, right, on, join.nulls_equal)?,
            how: join.how,
            room: MAX_JOINED_ROWS,
        })
    }

    /// Takes one more batch, and passes on the first of the rows that it gives.
    pub(crate) fn take(&mut self, alloc: Global, batch: Batch) -> Result<Made, Memory>
        requires { (m : Transform) × ((rows : List Row) × ((m.takes ≡ batch.fields) × HasTaken (running.Join self.old) m rows)) }
        ensures { IfOk result (λ p. (m : Transform) (rows : List Row) → m.takes ≡ batch.fields → HasTaken (running.Join self.old) m rows → Makes (running.Join self.new) m rows batch [] p) }
    {
        let probe = Probe::new(batch, self.how, self.room);
        self.go_on(alloc, probe)
    }

    /// Passes on the next rows that a batch gives which it has taken.
    pub(crate) fn go_on(&mut self, alloc: Global, probe: Probe) -> Result<Made, Memory>
        requires { (m : Transform) × ((rows : List Row) × ((batch : Frame) × ((given : List Row) × IsGiving (running.Join self.old) m rows batch given probe))) }
        ensures { IfOk result (λ p. (m : Transform) (rows : List Row) (batch : Frame) (given : List Row) → IsGiving (running.Join self.old) m rows batch given probe →
            Makes (running.Join self.new) m rows batch given p) }
    {
        let Part { batch, rest } = self.table.probe_part(alloc, probe, ROWS_OF_A_PART)?;
        self.room -= batch.rows() as u64;
        let (fault, rest) = match rest {
            Rest::More(probe) => (None, Some(probe)),
            Rest::End(full) => (full_at(self.number, full), None),
        };
        Ok(Made {
            passed: Passed {
                batch: Some(batch),
                fault,
            },
            rest,
        })
    }
}

// The fault of a step at which a left row's output would pass the room, if there is such a row.
fn full_at(step: u16, row: Option<usize>) -> Option<Fault>
    ensures { result ≡ option_map (λ _. fault.JoinRows step) row }
{
    match row {
        Some(_) => Some(Fault::JoinRows { step }),
        None => None,
    }
}
