//! Joins, groupings and rolling sums.
ghost use Rattle.fq_ops.specs.Examples.{SumExamples, GroupExamples, AggregateExamples, GroupSchemaExamples, JoinExamples, EqualNullsExamples, SuffixExamples, RoomExamples, RollExamples, RollSchemaExamples, TakeExamples};

/// The examples of the definitions of `fq_ops`.
pub fn worked_examples()
    ensures sums { SumExamples }
    ensures groups { GroupExamples }
    ensures aggregates { AggregateExamples }
    ensures group_schemas { GroupSchemaExamples }
    ensures joins { JoinExamples }
    ensures equal_nulls { EqualNullsExamples }
    ensures suffix { SuffixExamples }
    ensures room { RoomExamples }
    ensures rolls { RollExamples }
    ensures roll_schemas { RollSchemaExamples }
    ensures takes { TakeExamples }
{}
