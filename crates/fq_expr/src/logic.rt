//! Kleene's strong three-valued logic, in which null is a truth that is not known.
ghost use Rattle.std.specs.Prelude.{Option, Some};
ghost use Rattle.fq_expr.specs.Kleene.{and_table, or_table};
ghost use Rattle.fq_expr.specs.Value.{truth_of, truth_cell};

use crate::operations::{Computed, Operation};
use fq_column::Memory;
use std::alloc::Global;

/// False if one side is false, else null if one side is null, else true.
#[derive(Drop)]
pub struct And;

impl Operation<bool, bool, bool> for And {
    ghost gives = { λ _ a b. Some (truth_cell (and_table (truth_of a) (truth_of b))) };

    fn at(
        &self,
        _alloc: Global,
        left: Option<&bool>,
        right: Option<&bool>,
    ) -> Result<Computed<bool>, Memory> {
        match (left, right) {
            (Some(false), _) | (_, Some(false)) => Ok(Computed::Value(false)),
            (Some(true), Some(true)) => Ok(Computed::Value(true)),
            _ => Ok(Computed::Null),
        }
    }
}

/// True if one side is true, else null if one side is null, else false.
#[derive(Drop)]
pub struct Or;

impl Operation<bool, bool, bool> for Or {
    ghost gives = { λ _ a b. Some (truth_cell (or_table (truth_of a) (truth_of b))) };

    fn at(
        &self,
        _alloc: Global,
        left: Option<&bool>,
        right: Option<&bool>,
    ) -> Result<Computed<bool>, Memory> {
        match (left, right) {
            (Some(true), _) | (_, Some(true)) => Ok(Computed::Value(true)),
            (Some(false), Some(false)) => Ok(Computed::Value(false)),
            _ => Ok(Computed::Null),
        }
    }
}
