//! Comparisons of two values of one kind.
ghost use Rattle.std.specs.Prelude.{◌≡◌, Option};
ghost use Rattle.fq_expr.specs.Comparison.{answer_for, sameness_of, filled};
ghost use Rattle.fq_expr.specs.Value.{compared};

use crate::operations::{Computed, Datum, Operation};
use fq_column::Memory;
use std::alloc::Global;
use std::cmp::Ordering;

/// A comparison by the order of two values: its answer for each order, and null if a value is null.
#[derive(Drop)]
pub struct Comparison {
    /// The answer if the left value comes before the right.
    pub less: bool,
    /// The answer if they are equal.
    pub equal: bool,
    /// The answer if the left value comes after the right.
    pub greater: bool,
}

impl<T: Datum> Operation<T, T, bool> for Comparison {
    ghost gives = { λ test. compared (answer_for test) };

    fn at(
        &self,
        _alloc: Global,
        left: Option<&T>,
        right: Option<&T>,
    ) -> Result<Computed<bool>, Memory> {
        match (left, right) {
            (Some(a), Some(b)) => Ok(Computed::Value(self.answer(a.cmp(b)))),
            _ => Ok(Computed::Null),
        }
    }
}

impl Comparison {
    /// The comparison with these answers.
    pub fn of(less: bool, equal: bool, greater: bool) -> Comparison
        ensures { result ≡ record { less = less; equal = equal; greater = greater } }
    {
        Comparison {
            less,
            equal,
            greater,
        }
    }

    // The answer for an order.
    fn answer(&self, order: Ordering) -> bool
        ensures { result ≡ answer_for self.now order }
    {
        match order {
            Ordering::Less => self.less,
            Ordering::Equal => self.equal,
            Ordering::Greater => self.greater,
        }
    }
}

/// Whether two values are the same, or whether they differ; null is a value like any other.
#[derive(Drop)]
pub struct Sameness {
    /// What it answers for two that are the same.
    pub answer: bool,
}

impl<T: Datum> Operation<T, T, bool> for Sameness {
    ghost gives = { λ test. sameness_of test.answer };

    fn at(
        &self,
        _alloc: Global,
        left: Option<&T>,
        right: Option<&T>,
    ) -> Result<Computed<bool>, Memory> {
        let same = match (left, right) {
            (Some(a), Some(b)) => a == b,
            (None, None) => true,
            _ => false,
        };
        Ok(Computed::Value(same == self.answer))
    }
}

/// The left value, or the right one if the left is null.
#[derive(Drop)]
pub struct FillNull;

impl<T: Datum> Operation<T, T, T> for FillNull {
    ghost gives = { λ _. filled };

    fn at(
        &self,
        alloc: Global,
        left: Option<&T>,
        right: Option<&T>,
    ) -> Result<Computed<T>, Memory> {
        match left.or(right) {
            Some(value) => Ok(Computed::Value(value.copy_of(alloc)?)),
            None => Ok(Computed::Null),
        }
    }
}
