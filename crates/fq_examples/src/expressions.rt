//! Expressions, and the steps that work row by row.
ghost use Rattle.fq_expr.specs.Examples.{LogicValues, LogicKinds, EarliestRow, EarliestRowFirst, EarliestRowByBatches, NumberedFrom, DivisionValues, DivisionFault, RemainderOfLowest, ExpressionKinds, ExpressionValues, StepSchemas, FilteredRows, NeededColumns, ReplacedInPlace};

/// The examples of the definitions of `fq_expr`.
pub fn worked_examples()
    ensures logic { LogicValues }
    ensures logic_kinds { LogicKinds }
    ensures earliest { EarliestRow }
    ensures earliest_first { EarliestRowFirst }
    ensures earliest_by_batches { EarliestRowByBatches }
    ensures numbered { NumberedFrom }
    ensures division { DivisionValues }
    ensures division_fault { DivisionFault }
    ensures remainder { RemainderOfLowest }
    ensures kinds { ExpressionKinds }
    ensures values { ExpressionValues }
    ensures schemas { StepSchemas }
    ensures filtered { FilteredRows }
    ensures replaced { ReplacedInPlace }
    ensures needed { NeededColumns }
{}
