//! Rolling sums over columns that come one after another.
ghost use Rattle.std.specs.Prelude.{◌≡◌, ◌≤◌, ◌++◌, ◌∷◌, None, Some, List, [], drop, length, false, IfOk, MatchResult, OnOk, OnErr};
ghost use Rattle.circular_buffer.specs.Buffer.{keep_last};
ghost use Rattle.fq_column.specs.Column.{nullable};
ghost use Rattle.fq_column.specs.Lists.{before_missing, first_missing};
ghost use Rattle.fq_column.specs.declared.cells.Cell.{Cell as Value};
ghost use Rattle.fq_column.specs.declared.cells.Cell.TheVariants as cell;
ghost use Rattle.fq_column.specs.declared.cells.Kind.TheVariants.{Whole};
ghost use Rattle.fq_ops.specs.Roll.{rolled};
ghost use Rattle.fq_ops.specs.Taken.{HasTakenCells};
ghost use Rattle.fq_ops.specs.Window.{sum_of_window};

use crate::sums::Total;
use circular_buffer::HeapCircularBuffer;
use fq_column::{Array, Column, Memory, Values};
use std::alloc::Global;
use std::marker::Model;

/// The most rows of a window.
pub const MAX_WINDOW: u32 = 65_536;

/// A rolling sum over columns that come one after another, which are taken as one long column.
///
/// It keeps the window in a ring, with the sum and the number of its values, so a cell costs the same at each window.
#[derive(Drop)]
pub struct Rolling {
    ring: HeapCircularBuffer<Option<i64>>,
    total: Total,
    min_samples: u32,
    faulted: bool,
}

impl Model for Rolling {
    ghost use Rattle.fq_ops.specs.Taken.{Window};

    ghost Value = { Window };

    ghost use Rattle.std.specs.Prelude.{map};
    ghost use Rattle.fq_column.specs.Column.{nullable};
    ghost use Rattle.fq_column.specs.declared.cells.Cell.TheVariants.{Whole};
    ghost use Rattle.fq_ops.specs.Window.{IsRunning};

    ghost view = { λ r. record { window = r.ring.capacity; min_samples = r.min_samples; last = map (nullable Whole) r.ring.items; faulted = r.faulted } };

    ghost invariant = { λ r. IsRunning r.ring.items r.ring.capacity r.total.sum r.total.count };
}

// A sum that does not fit 64 bits.
#[derive(Drop)]
struct OutOfRange;

impl Rolling {
    /// A rolling sum that has taken no cell: over a window of 1 to 65,536 rows, given where at least `min_samples`
    /// values stand in it, which is from 1 to the window. Allocates for the window.
    pub fn new(alloc: Global, window: u32, min_samples: u32) -> Result<Rolling, Memory>
        requires window { (1 ≤ window) × (window ≤ MAX_WINDOW) }
        requires samples { (1 ≤ min_samples) × (min_samples ≤ window) }
        ensures window { IfOk result (λ r. r.window ≡ window) }
        ensures samples { IfOk result (λ r. r.min_samples ≡ min_samples) }
        ensures taken { IfOk result (λ r. HasTakenCells r []) }
    {
        let ring = HeapCircularBuffer::with_capacity(alloc, window as usize)?;
        Ok(Rolling {
            ring,
            total: Total { sum: 0, count: 0 },
            min_samples,
            faulted: false,
        })
    }

    /// The sums at the cells of the next column, and the row of the column whose sum does not fit 64 bits, before which
    /// the sums end. From then on the rolling sum has faulted. One pass over the column.
    pub fn take(
        &mut self,
        alloc: Global,
        column: &Column,
    ) -> Result<(Column, Option<usize>), Memory>
        requires kind { column.now.kind ≡ Whole }
        requires not_faulted { self.old.faulted ≡ false }
        ensures shape { (self.new.window ≡ self.old.window) × (self.new.min_samples ≡ self.old.min_samples) }
        ensures taken { OnOk result ((cells : List Value) → HasTakenCells self.old cells → HasTakenCells self.new (cells ++ column.now.cells)) }
        ensures kind { IfOk result (λ r. r.0.kind ≡ Whole) }
        ensures sums { IfOk result (λ r. (cells : List Value) → HasTakenCells self.old cells →
            r.0.cells ≡ before_missing (drop (length cells) (rolled self.old.window self.old.min_samples (cells ++ column.now.cells)))) }
        ensures fault { IfOk result (λ r. (cells : List Value) → HasTakenCells self.old cells →
            r.1 ≡ first_missing (drop (length cells) (rolled self.old.window self.old.min_samples (cells ++ column.now.cells)))) }
        ensures err { OnErr result (self.new ≡ self.old) }
    {
        let Values::Whole(values) = column.values() else {
            unreachable!()
        };
        let mut sums = Array::nulls(alloc, values.len())?;
        for i in 0..values.len() {
            self.slide(values.get(i).copied());
            let sum = match self.sum() {
                Ok(sum) => sum,
                Err(OutOfRange) => {
                    self.faulted = true;
                    sums.truncate(i);
                    return Ok((Column::from_values(Values::Whole(sums)), Some(i)));
                }
            };
            if let Some(sum) = sum {
                sums.set(i, sum);
            }
        }
        Ok((Column::from_values(Values::Whole(sums)), None))
    }

    /// Whether a sum did not fit, after which no column may be taken.
    pub fn faulted(&self) -> bool
        ensures { result ≡ self.now.faulted }
    {
        self.faulted
    }

    // Moves the window by one place.
    fn slide(&mut self, place: Option<i64>)
        ensures { self.new ≡ record self.old { last = keep_last self.old.window (self.old.last ++ nullable cell.Whole place ∷ []) } }
    {
        let left = self.ring.push_back(place).unwrap_or(None);
        self.total.remove(left);
        self.total.add(place);
    }

    // The sum of the window, or none if too few values stand in it.
    fn sum(&self) -> Result<Option<i64>, OutOfRange>
        ensures { MatchResult result
            (λ sum. sum_of_window self.now.min_samples self.now.last ≡ Some (nullable cell.Whole sum))
            (λ _. sum_of_window self.now.min_samples self.now.last ≡ None) }
    {
        if self.total.count < self.min_samples as u64 {
            return Ok(None);
        }
        match i64::try_from(self.total.sum) {
            Ok(sum) => Ok(Some(sum)),
            Err(_) => Err(OutOfRange),
        }
    }
}
