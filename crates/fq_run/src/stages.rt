//! The parts of a physical plan.
use crate::operators::Operator;
use fq_column::Schema;

/// An operator, the number of its first step in the plan, from 0, and the schema of the rows that it leaves.
#[derive(Drop)]
pub struct Stage {
    pub number: u16,
    pub operator: Operator,
    pub after: Schema,
}
