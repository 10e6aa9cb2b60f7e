//! Running operators one after the other.
ghost use Rattle.std.specs.Prelude.{◌≡◌, ◌≤◌, ◌⊎◌, ◌++◌, List, [], None, Some, drop, length, map, take, IfErr, IfOk, OnOk};
ghost use Rattle.std.specs.List.{list_any};
ghost use Rattle.fq_column.specs.Frame.{Fields, Row};
ghost use Rattle.fq_column.specs.Stream.{done};
ghost use Rattle.fq_notation.specs.declared.notations.Notation.{Notation};
ghost use Rattle.fq_run.specs.Pipelines.{EndsIn, HandsOn, HasRun, Transforming};
ghost use Rattle.fq_run.specs.RunningOperators.{HaveTaken, IsUnder, passed_stream, rows_in};
ghost use Rattle.fq_run.specs.Stages.{Fit};
ghost use Rattle.fq_run.specs.Starting.{joins_source, right_of, rights_of, transforms_of};
ghost use Rattle.fq_run.specs.Transforms.{Chain, Transform, whole_all};
ghost use Rattle.fq_run.specs.declared.faults.Fault.TheVariants as fault;

use crate::faults::Fault;
use crate::operators::{Made, Operator, RunningOperator};
use crate::passed::Passed;
use crate::row_sinks::RowSink;
use crate::stages::Stage;
use fq_column::{Batch, Memory, Schema};
use std::alloc::Global;
use std::mem;

/// Running operators, each of which takes what the one before it passes on.
#[derive(Drop)]
pub(crate) struct Pipeline<'a> {
    pub(crate) operators: Vec<RunningOperator<'a>>,
}

impl<'a> Pipeline<'a> {
    /// The operators of stages that have taken no row, on rows of a schema, with the rows of the sources that they join.
    pub(crate) fn start(
        alloc: Global,
        sides: Vec<Batch>,
        schema: &Schema,
        stages: &'a [Stage],
    ) -> Result<Pipeline<'a>, Memory>
        requires { (after : Fields) × Fit (map (λ f. f.fields) sides.items) schema.now stages.now after }
        ensures { IfOk result (λ p. (after : Fields) → Fit (map (λ f. f.fields) sides.items) schema.now stages.entry.now after →
            HasRun p.operators.items (record { before = schema.now; transforms = transforms_of sides.items schema.now stages.entry.now; after = after }) [] []) }
    {
        let mut sides = sides;
        let mut operators = Vec::with_capacity(alloc, stages.len())?;
        let mut at = schema;
        for number in 0..stages.len() {
            let stage = &stages[number];
            let later = &stages[number + 1..];
            let right = take_right(alloc, &mut sides, &stage.operator, later)?;
            operators.push(RunningOperator::start(alloc, right, at, stage)?)?;
            at = &stage.after;
        }
        Ok(Pipeline { operators })
    }

    /// Takes one more piece. What the operators make of it at once goes to the sink; or the fault that ends all is answered.
    pub(crate) fn push<S: RowSink>(
        &mut self,
        alloc: Global,
        input: Passed,
        sink: &mut S,
    ) -> Result<(), Fault>
        requires { (w : Transforming) × ((rows : List Row) × ((out : List Row) × (HasRun self.old.operators.items w rows out × IsUnder w.before input.batch))) }
        ensures goes_on { OnOk result ((notations : List Notation) (w : Transforming) (rows out : List Row) → HasRun self.old.operators.items w rows out → IsUnder w.before input.batch →
            (more : List Row) × ((input.fault ≡ None) × (HasRun self.new.operators.items w (rows ++ rows_in input.batch) (out ++ more) × (S.has notations sink.old w.after out → S.has notations sink.new w.after (out ++ more))))) }
        ensures ends { IfErr result (λ f. (f ≡ fault.Memory) ⊎ ((w : Transforming) (rows out : List Row) → HasRun self.old.operators.items w rows out → IsUnder w.before input.batch →
            EndsIn w.transforms rows (passed_stream input) f)) }
    {
        self.pass(0, alloc, input, sink)
    }

    /// No more comes: what is left goes to the sink, or the fault that ends all is answered. No more can be taken.
    pub(crate) fn finish<S: RowSink>(&mut self, alloc: Global, sink: &mut S) -> Result<(), Fault>
        requires { (w : Transforming) × ((rows : List Row) × ((out : List Row) × HasRun self.old.operators.items w rows out)) }
        ensures all { OnOk result ((notations : List Notation) (w : Transforming) (rows out : List Row) → HasRun self.old.operators.items w rows out → S.has notations sink.old w.after out →
            (more : List Row) × ((whole_all w.transforms (done rows) ≡ done (out ++ more)) × S.has notations sink.new w.after (out ++ more))) }
        ensures ends { IfErr result (λ f. (f ≡ fault.Memory) ⊎ ((w : Transforming) (rows out : List Row) → HasRun self.old.operators.items w rows out →
            (whole_all w.transforms (done rows)).fault ≡ Some f)) }
    {
        for place in 0..self.operators.len() {
            let left = self.operators[place].finish(alloc)?;
            self.pass(place + 1, alloc, left, sink)?;
        }
        Ok(())
    }

    // A piece goes through the operators from a place on, each of which passes on at once, part by part, what it makes of it, and the
    // last of them to the sink; or the fault that ends all is answered.
    fn pass<S: RowSink>(
        &mut self,
        place: usize,
        alloc: Global,
        input: Passed,
        sink: &mut S,
    ) -> Result<(), Fault>
        requires place { place ≤ length self.old.operators.items }
        requires can { (ms : List Transform) × ((rows : List Row) × ((before : Fields) × ((after : Fields) × (HaveTaken (drop place self.old.operators.items) ms rows × (Chain before ms after × IsUnder before input.batch))))) }
        ensures kept { OnOk result ((length self.new.operators.items ≡ length self.old.operators.items) × (take place self.new.operators.items ≡ take place self.old.operators.items)) }
        ensures goes_on { OnOk result ((notations : List Notation) (ms : List Transform) (rows : List Row) (before after : Fields) → HaveTaken (drop place self.old.operators.items) ms rows → Chain before ms after →
            IsUnder before input.batch → (input.fault ≡ None) × HandsOn (S.has notations) (drop place self.new.operators.items) ms rows after (rows_in input.batch) sink.old sink.new) }
        ensures ends { IfErr result (λ f. (f ≡ fault.Memory) ⊎ ((ms : List Transform) (rows : List Row) (before after : Fields) → HaveTaken (drop place self.old.operators.items) ms rows →
            Chain before ms after → IsUnder before input.batch → EndsIn ms rows (passed_stream input) f)) }
    {
        let Passed { batch, fault } = input;
        let Some(batch) = batch else {
            return ended(fault);
        };
        if place == self.operators.len() {
            sink.take(batch)?;
            return ended(fault);
        }
        let mut made = self.operators[place].take(alloc, batch)?;
        for _ in 0..u64::MAX {
            let Made { passed, rest } = made;
            self.pass(place + 1, alloc, passed, sink)?;
            let Some(probe) = rest else {
                return ended(fault);
            };
            made = self.operators[place].go_on(alloc, probe)?;
        }
        // Not reached: a join gives at most 4,294,967,295 rows, and each part but the last has some.
        Err(Fault::Memory)
    }
}

// A fault, if there is one.
fn ended(fault: Option<Fault>) -> Result<(), Fault>
    ensures none { OnOk result (fault ≡ None) }
    ensures some { IfErr result (λ f. fault ≡ Some f) }
{
    match fault {
        Some(fault) => Err(fault),
        None => Ok(()),
    }
}

// The right rows of an operator, if it is a join with a source that is there: a copy of the source's rows if a later stage joins
// these too, and otherwise the rows themselves.
fn take_right(
    alloc: Global,
    sides: &mut Vec<Batch>,
    operator: &Operator,
    later: &[Stage],
) -> Result<Option<Batch>, Memory>
    ensures right { IfOk result (λ right. right ≡ right_of sides.old.items operator.now) }
    ensures left { OnOk result (rights_of sides.new.items later.now ≡ rights_of sides.old.items later.now) }
{
    let Operator::Join(join) = operator else {
        return Ok(None);
    };
    let source = join.source;
    if source >= sides.len() {
        return Ok(None);
    }
    if is_joined(later, source) {
        return Ok(Some(sides[source].copy(alloc)?));
    }
    let no_rows = Batch::empty(alloc, sides[source].schema().copy(alloc)?)?;
    Ok(Some(mem::replace(&mut sides[source], no_rows)))
}

// Whether a stage joins a source.
fn is_joined(stages: &[Stage], source: usize) -> bool
    ensures { result ≡ list_any (λ s. joins_source source s.operator) stages.now }
{
    stages.iter().any(|stage| stage.operator.joins(source))
}
