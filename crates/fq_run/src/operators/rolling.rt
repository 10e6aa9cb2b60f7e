//! A rolling sum that runs.
ghost use Rattle.std.specs.Prelude.{◌≡◌, List, [], None, pos, string_bytes, IfOk, IsOk};
ghost use Rattle.fq_column.specs.Frame.{Row};
ghost use Rattle.fq_run.specs.Transforms.{Transform, roll_transform};
ghost use Rattle.fq_ops.specs.Roll.{roll_schema};
ghost use Rattle.fq_run.specs.RunningOperators.{HasSummed, Takes};

use crate::faults::Fault;
use crate::passed::Passed;
use fq_column::{Batch, Memory, Schema};
use fq_ops::Rolling;
use std::alloc::Global;

/// A rolling sum of a column, under a name.
#[derive(Drop)]
pub struct RollingSum {
    /// The name of the column.
    pub column: String,
    /// How many rows a sum goes over at most, from 1 to 65,536.
    pub window: u32,
    /// How many values it needs at least, from 1 to `window`.
    pub min_samples: u32,
    /// The name of the sums' column.
    pub name: String,
}

/// A rolling sum of the column at a place, put under a name.
#[derive(Drop)]
pub(crate) struct Summing<'a> {
    pub(crate) number: u16,
    pub(crate) place: usize,
    pub(crate) name: &'a str,
    pub(crate) rolling: Rolling,
}

impl<'a> Summing<'a> {
    /// A rolling sum that has taken no row.
    pub(crate) fn new(
        alloc: Global,
        number: u16,
        schema: &Schema,
        rolling_sum: &'a RollingSum,
    ) -> Result<Summing<'a>, Memory>
        requires { IsOk (roll_schema schema.now (string_bytes rolling_sum.now.column) (pos rolling_sum.now.window) (pos rolling_sum.now.min_samples) (string_bytes rolling_sum.now.name)) }
        ensures { let r = rolling_sum.entry.now in IfOk result (λ s. HasSummed s (roll_transform number schema.now (string_bytes r.column) r.window r.min_samples (string_bytes r.name)) []) }
    {
        let Some(place) = schema.position(rolling_sum.column.as_str()) else {
            unreachable!()
        };
        Ok(Summing {
            number,
            place,
            name: rolling_sum.name.as_str(),
            rolling: Rolling::new(alloc, rolling_sum.window, rolling_sum.min_samples)?,
        })
    }

    /// Takes one more batch, and passes it on with its sums.
    pub(crate) fn take(&mut self, alloc: Global, batch: Batch) -> Result<Passed, Memory>
        requires { (m : Transform) × ((rows : List Row) × ((m.takes ≡ batch.fields) × ((m.at_once rows).fault ≡ None) × HasSummed self.old m rows)) }
        ensures { IfOk result (λ p. Takes (HasSummed self.old) (HasSummed self.new) batch p) }
    {
        let mut batch = batch;
        let (sums, out_of_range) = self.rolling.take(alloc, batch.column(self.place))?;
        batch.cut(sums.len());
        batch.put(self.name, sums)?;
        let fault = match out_of_range {
            Some(_) => Some(Fault::RollRange { step: self.number }),
            None => None,
        };
        Ok(Passed {
            batch: Some(batch),
            fault,
        })
    }
}
