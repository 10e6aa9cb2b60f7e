//! Arithmetic of whole numbers.
ghost use Rattle.std.specs.Prelude.{◌≡◌, ◌+ℤ◌, ◌-ℤ◌, ◌*ℤ◌, ◌≢◌, ℤ, pos, Option, Some, FitsSigned};
ghost use Rattle.std.specs.Int.{w64};
ghost use Rattle.std.specs.Option.{SomeIff};
ghost use Rattle.fq_column.specs.declared.cells.Cell.{Cell};
ghost use Rattle.fq_column.specs.declared.cells.Cell.TheVariants as cells;
ghost use Rattle.fq_column.specs.Cell.{fitted};
ghost use Rattle.fq_expr.specs.Computed.{computed_cell};
ghost use Rattle.fq_expr.specs.Division.{floor_quotient, floor_remainder};
ghost use Rattle.fq_expr.specs.Value.{of_wholes, unless_zero};

use crate::operations::{Computed, Operation};
use fq_column::Memory;
use std::alloc::Global;

/// An operation on two whole numbers.
pub trait Arithmetic: Drop {
    /// What it gives for them, or a fault.
    ghost gives: { Self → ℤ → ℤ → Option Cell };

    fn of(&self, a: i64, b: i64) -> Computed<i64>
        ensures { computed_cell cells.Whole result ≡ gives self.now a b };
}

/// An operation on whole numbers that answers null if an operand is null.
#[derive(Drop)]
pub struct Arithmetically<F>(pub F);

impl<F: Arithmetic> Operation<i64, i64, i64> for Arithmetically<F> {
    ghost gives = { λ operation. of_wholes (F.gives operation.0) };

    fn at(
        &self,
        _alloc: Global,
        left: Option<&i64>,
        right: Option<&i64>,
    ) -> Result<Computed<i64>, Memory> {
        match (left, right) {
            (Some(a), Some(b)) => Ok(self.0.of(*a, *b)),
            _ => Ok(Computed::Null),
        }
    }
}

// A whole number, or a fault if it does not fit 64 bits.
fn checked(number: Option<i64>) -> Computed<i64>
    ensures { (z : ℤ) → SomeIff number (FitsSigned w64 z) z → computed_cell cells.Whole result ≡ fitted z }
{
    match number {
        Some(number) => Computed::Value(number),
        None => Computed::Fault,
    }
}

/// The sum.
#[derive(Drop)]
pub struct Add;

/// The difference.
#[derive(Drop)]
pub struct Sub;

/// The product.
#[derive(Drop)]
pub struct Mul;

/// The quotient rounded towards minus infinity.
#[derive(Drop)]
pub struct FloorDiv;

/// The remainder of that quotient.
#[derive(Drop)]
pub struct Mod;

impl Arithmetic for Add {
    ghost gives = { λ _ a b. fitted (a +ℤ b) };

    fn of(&self, a: i64, b: i64) -> Computed<i64> {
        checked(a.checked_add(b))
    }
}

impl Arithmetic for Sub {
    ghost gives = { λ _ a b. fitted (a -ℤ b) };

    fn of(&self, a: i64, b: i64) -> Computed<i64> {
        checked(a.checked_sub(b))
    }
}

impl Arithmetic for Mul {
    ghost gives = { λ _ a b. fitted (a *ℤ b) };

    fn of(&self, a: i64, b: i64) -> Computed<i64> {
        checked(a.checked_mul(b))
    }
}

impl Arithmetic for FloorDiv {
    ghost gives = { λ _. unless_zero (λ a b. fitted (floor_quotient a b)) };

    fn of(&self, a: i64, b: i64) -> Computed<i64> {
        if b == 0 {
            return Computed::Null;
        }
        checked(quotient(a, b))
    }
}

impl Arithmetic for Mod {
    ghost gives = { λ _. unless_zero (λ a b. Some (cells.Whole (floor_remainder a b))) };

    fn of(&self, a: i64, b: i64) -> Computed<i64> {
        if b == 0 {
            return Computed::Null;
        }
        Computed::Value(remainder(a, b))
    }
}

// The quotient rounded towards minus infinity, if it fits 64 bits.
fn quotient(a: i64, b: i64) -> Option<i64>
    requires { b ≢ pos 0 }
    ensures { SomeIff result (FitsSigned w64 (floor_quotient a b)) (floor_quotient a b) }
{
    if b > 0 {
        return Some(a.div_euclid(b));
    }
    i64::try_from((-i128::from(a)).div_euclid(-i128::from(b))).ok()
}

// The remainder of the quotient rounded towards minus infinity: 0, or a number with the divisor's sign.
fn remainder(a: i64, b: i64) -> i64
    requires { b ≢ pos 0 }
    ensures { result ≡ floor_remainder a b }
{
    if b > 0 {
        return a.rem_euclid(b);
    }
    -((-i128::from(a)).rem_euclid(-i128::from(b))) as i64
}
