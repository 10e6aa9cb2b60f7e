//! A grouping that runs.
ghost use Rattle.std.specs.Prelude.{◌≡◌, List, [], None, map, string_bytes, IfOk, IsOk};
ghost use Rattle.fq_column.specs.Frame.{Row};
ghost use Rattle.fq_run.specs.Transforms.{Transform, group_transform};
ghost use Rattle.fq_ops.specs.Group.{group_schema};
ghost use Rattle.fq_ops.specs.AggregateData.{outputs_of};
ghost use Rattle.fq_run.specs.RunningOperators.{HasGrouped, IsUnder, Takes, passed_stream};

use crate::faults::Fault;
use crate::passed::Passed;
use fq_column::{Batch, Memory, Schema};
use fq_ops::{Agg, GroupFault, Grouper, MAX_GROUPED_ROWS};
use std::alloc::Global;

/// Aggregates of groups.
#[derive(Drop)]
pub struct GroupBy {
    /// The names of the key columns.
    pub keys: Vec<String>,
    /// The aggregates, each with the name of its output.
    pub aggs: Vec<Agg>,
}

/// A grouping, which passes nothing on before the end. It has a grouper until then.
#[derive(Drop)]
pub(crate) struct Grouping {
    pub(crate) number: u16,
    pub(crate) grouper: Option<Grouper>,
}

impl Grouping {
    /// A grouping of columns that has taken no row.
    pub(crate) fn new(
        alloc: Global,
        number: u16,
        schema: &Schema,
        group_by: &GroupBy,
    ) -> Result<Grouping, Memory>
        requires { IsOk (group_schema schema.now (map string_bytes group_by.now.keys.items) (outputs_of group_by.now.aggs.items)) }
        ensures { IfOk result (λ g. HasGrouped g (group_transform number schema.now (map string_bytes group_by.now.keys.items) (outputs_of group_by.now.aggs.items)) []) }
    {
        let (keys, aggs) = (group_by.keys.as_slice(), group_by.aggs.as_slice());
        let grouper = Grouper::new(alloc, schema.copy(alloc)?, keys, aggs)?;
        Ok(Grouping {
            number,
            grouper: Some(grouper),
        })
    }

    /// Takes one more batch.
    pub(crate) fn take(&mut self, alloc: Global, batch: Batch) -> Result<Passed, Memory>
        requires { (m : Transform) × ((rows : List Row) × ((m.takes ≡ batch.fields) × ((m.at_once rows).fault ≡ None) × HasGrouped self.old m rows)) }
        ensures { IfOk result (λ p. Takes (HasGrouped self.old) (HasGrouped self.new) batch p) }
    {
        let Some(grouper) = &mut self.grouper else {
            unreachable!()
        };
        if grouper.rows_taken().saturating_add(batch.rows() as u64) > MAX_GROUPED_ROWS {
            return Err(Memory);
        }
        grouper.take(alloc, &batch)?;
        Ok(Passed {
            batch: None,
            fault: None,
        })
    }

    /// The rows of the groups, or the fault of a sum that does not fit. No more can be taken.
    pub(crate) fn finish(&mut self, alloc: Global) -> Result<Passed, Memory>
        requires { (m : Transform) × ((rows : List Row) × HasGrouped self.old m rows) }
        ensures columns { IfOk result (λ p. (m : Transform) (rows : List Row) → HasGrouped self.old m rows → IsUnder m.gives p.batch) }
        ensures rows { IfOk result (λ p. (m : Transform) (rows : List Row) → HasGrouped self.old m rows → passed_stream p ≡ m.in_all rows) }
    {
        let Some(grouper) = self.grouper.take() else {
            unreachable!()
        };
        match grouper.finish(alloc) {
            Ok(batch) => Ok(Passed {
                batch: Some(batch),
                fault: None,
            }),
            Err(GroupFault::SumRange { item }) => Ok(Passed {
                batch: None,
                fault: Some(Fault::SumRange {
                    step: self.number,
                    item,
                }),
            }),
            Err(GroupFault::Memory) => Err(Memory),
        }
    }
}
