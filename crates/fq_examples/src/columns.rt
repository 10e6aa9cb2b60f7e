//! Schemas, columns, batches, pieces and streams.
ghost use Rattle.fq_column.specs.Examples.{SchemaExamples, ColumnExamples, BatchExamples, PieceExamples, StreamExamples};

/// The examples of the definitions of `fq_column`.
pub fn worked_examples()
    ensures schemas { SchemaExamples }
    ensures columns { ColumnExamples }
    ensures batches { BatchExamples }
    ensures pieces { PieceExamples }
    ensures streams { StreamExamples }
{}
