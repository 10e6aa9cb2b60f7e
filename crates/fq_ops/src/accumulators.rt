//! The running values of an aggregate, one for each group.
ghost use Rattle.std.specs.Prelude.{◌≡◌, ◌+◌, ◌-◌, ◌<◌, ◌≤◌, ◌^◌, ℕ, [], All, is_some, length, map, IfOk, OnOk};
ghost use Rattle.fq_column.specs.Lists.{numbers};
ghost use Rattle.fq_ops.specs.Accumulated.{HaveTaken, IsAccumulator, accumulated, grown_and_stepped, padded, running_pick, stepped_along, value_in, value_pick};
ghost use Rattle.fq_ops.specs.Picks.{column_of};
ghost use Rattle.fq_ops.specs.Running.{IsBoundedBy, function_in, running_in, start_of};

use crate::aggregates::Function;
use crate::groups::MAX_GROUPED_ROWS;
use crate::running::State;
use crate::states::{Count, Distinct, First, Greatest, Last, Least, RowCount, Sum};
use fq_column::{Batch, Cell, Column, Kind, Memory};
use std::alloc::Global;
use std::marker::Model;

// What an expression makes of the running values, whatever their function.
macro_rules! for_each_function {
    ($states:expr, $values:ident => $made:expr) => {
        match $states {
            States::Sum($values) => $made,
            States::Min($values) => $made,
            States::Max($values) => $made,
            States::Count($values) => $made,
            States::Len($values) => $made,
            States::First($values) => $made,
            States::Last($values) => $made,
            States::NUnique($values) => $made,
        }
    };
}

/// An aggregate function of a column, and its running value in each group.
#[derive(Drop)]
pub struct Accumulator {
    column: usize,
    states: States,
}

impl Model for Accumulator {
    ghost use Rattle.fq_ops.specs.Accumulated.{Accumulated};
    ghost use Rattle.fq_ops.specs.Running.{function_in, running_in};

    ghost Value = { Accumulated };

    ghost view = { λ a. record { function = function_in a.states; column = a.column; states = running_in a.states } };
}

/// The running values of one aggregate function, one for each group.
#[derive(Drop)]
pub enum States {
    Sum(Vec<Sum>),
    Min(Vec<Least>),
    Max(Vec<Greatest>),
    Count(Vec<Count>),
    Len(Vec<RowCount>),
    First(Vec<First>),
    Last(Vec<Last>),
    NUnique(Vec<Distinct>),
}

impl Accumulator {
    /// No group yet; allocates nothing.
    pub fn new(alloc: Global, function: Function, column: usize) -> Accumulator
        ensures { result ≡ record { function = function; column = column; states = [] } }
    {
        Accumulator {
            column,
            states: States::new(alloc, function),
        }
    }

    /// Takes the rows of a batch, each in the group of its number, of so many groups in all.
    pub fn take(
        &mut self,
        alloc: Global,
        batch: &Batch,
        numbers: &[usize],
        groups: usize,
    ) -> Result<(), Memory>
        requires column { self.old.column < length batch.now.fields }
        requires beside { length numbers.now ≡ length batch.now.rows }
        requires within { All (λ n. n < groups) numbers.now }
        requires groups { length self.old.states ≤ groups }
        requires few { length numbers.now ≤ MAX_GROUPED_ROWS }
        requires bounded { All (IsBoundedBy (MAX_GROUPED_ROWS - length numbers.now)) self.old.states }
        ensures taken { OnOk result (self.new ≡ accumulated groups numbers.now batch.now.rows self.old) }
        ensures ready { OnOk result ((n : ℕ) → All (IsBoundedBy n) self.old.states →
            IsAccumulator (length batch.now.fields) groups (n + length numbers.now) self.new) }
    {
        let column = batch.column(self.column);
        self.states.take(alloc, column, numbers, groups)
    }

    /// Whether the value of a group fits 64 bits, which only a sum may not.
    pub fn fits(&self, group: usize) -> bool
        requires { group < length self.now.states }
        ensures { result ≡ is_some (value_in group self.now) }
    {
        match &self.states {
            States::Sum(sums) => sums[group].fits(),
            _ => true,
        }
    }

    /// The column of the groups' values, with null where a value does not fit 64 bits or is of another kind.
    pub fn column(&self, alloc: Global, kind: Kind) -> Result<Column, Memory>
        requires { All (IsBoundedBy MAX_GROUPED_ROWS) self.now.states }
        ensures { IfOk result (λ column. column ≡ column_of (numbers (length self.now.states)) (value_pick kind self.now)) }
    {
        for_each_function!(&self.states, states => gather(alloc, kind, states))
    }
}

impl States {
    // No group yet; allocates nothing.
    fn new(alloc: Global, function: Function) -> States
        ensures function { function_in result ≡ function }
        ensures states { running_in result ≡ [] }
    {
        match function {
            Function::Sum => States::Sum(Vec::new(alloc)),
            Function::Min => States::Min(Vec::new(alloc)),
            Function::Max => States::Max(Vec::new(alloc)),
            Function::Count => States::Count(Vec::new(alloc)),
            Function::Len => States::Len(Vec::new(alloc)),
            Function::First => States::First(Vec::new(alloc)),
            Function::Last => States::Last(Vec::new(alloc)),
            Function::NUnique => States::NUnique(Vec::new(alloc)),
        }
    }

    // Takes the cells of a column, each in the group of its row's number, of so many groups in all.
    fn take(
        &mut self,
        alloc: Global,
        column: &Column,
        numbers: &[usize],
        groups: usize,
    ) -> Result<(), Memory>
        requires beside { length numbers.now ≡ length column.now.cells }
        requires within { All (λ n. n < groups) numbers.now }
        requires groups { length (running_in self.old) ≤ groups }
        requires few { length numbers.now ≤ MAX_GROUPED_ROWS }
        requires bounded { All (IsBoundedBy (MAX_GROUPED_ROWS - length numbers.now)) (running_in self.old) }
        ensures function { OnOk result (function_in self.new ≡ function_in self.old) }
        ensures taken { OnOk result (running_in self.new ≡ grown_and_stepped groups numbers.now column.now.cells (function_in self.old) (running_in self.old)) }
        ensures bounded { OnOk result (HaveTaken (length numbers.now) (running_in self.old) (running_in self.new)) }
    {
        for_each_function!(self, states => take(alloc, states, column, numbers, groups))
    }
}

// Takes the cells of a column, each in the group of its row's number, of so many groups in all.
fn take<S: State>(
    alloc: Global,
    states: &mut Vec<S>,
    column: &Column,
    numbers: &[usize],
    groups: usize,
) -> Result<(), Memory>
    requires beside { length numbers.now ≡ length column.now.cells }
    requires within { All (λ n. n < groups) numbers.now }
    requires groups { length states.old.items ≤ groups }
    requires few { length numbers.now ≤ MAX_GROUPED_ROWS }
    requires bounded { All (IsBoundedBy (MAX_GROUPED_ROWS - length numbers.now)) (map S.running states.old.items) }
    ensures taken { OnOk result (map S.running states.new.items ≡ grown_and_stepped groups numbers.now column.now.cells S.function (map S.running states.old.items)) }
    ensures bounded { OnOk result (HaveTaken (length numbers.now) (map S.running states.old.items) (map S.running states.new.items)) }
{
    grow(alloc, states, groups)?;
    step_all(alloc, states, column, numbers)
}

// Adds the running values of new groups.
fn grow<S: State>(alloc: Global, states: &mut Vec<S>, groups: usize) -> Result<(), Memory>
    requires { length states.old.items ≤ groups }
    ensures grown { OnOk result (map S.running states.new.items ≡ padded groups (start_of S.function) (map S.running states.old.items)) }
    ensures size { OnOk result (length states.new.items ≡ groups) }
{
    states.reserve(groups - states.len())?;
    for _ in states.len()..groups {
        states.push(S::start(alloc))?;
    }
    Ok(())
}

// Takes the cells of a column, each in the group of its row's number.
fn step_all<S: State>(
    alloc: Global,
    states: &mut Vec<S>,
    column: &Column,
    numbers: &[usize],
) -> Result<(), Memory>
    requires beside { length numbers.now ≡ length column.now.cells }
    requires within { All (λ n. n < length states.old.items) numbers.now }
    requires few { length numbers.now ≤ MAX_GROUPED_ROWS }
    requires bounded { All (IsBoundedBy (MAX_GROUPED_ROWS - length numbers.now)) (map S.running states.old.items) }
    ensures stepped { OnOk result (map S.running states.new.items ≡ stepped_along (map S.running states.old.items) numbers.now column.now.cells) }
    ensures bounded { OnOk result (HaveTaken (length numbers.now) (map S.running states.old.items) (map S.running states.new.items)) }
{
    for row in 0..numbers.len() {
        let state = &mut states[numbers[row]];
        state.step(alloc, column, row)?;
    }
    Ok(())
}

// The column of the groups' values, with null where a value does not fit 64 bits or is of another kind.
fn gather<S: State>(alloc: Global, kind: Kind, states: &Vec<S>) -> Result<Column, Memory>
    requires { All (IsBoundedBy MAX_GROUPED_ROWS) (map S.running states.now.items) }
    ensures { IfOk result (λ column. column ≡ column_of (numbers (length states.now.items)) (running_pick kind (map S.running states.now.items))) }
{
    let mut column = Column::with_capacity(alloc, kind, states.len())?;
    for group in 0..states.len() {
        states[group].push_to(&mut column)?;
    }
    Ok(column)
}
