//! Laws of the definitions, proved for all values.
ghost use Rattle.std.specs.Prelude.{◌≡◌, ◌<◌, ℕ, IsSome, IsTrue, List, Ok, Some, option_map};
ghost use Rattle.fq_column.specs.Frame.{Fields, Name, Row, names_of, same_name};
ghost use Rattle.fq_column.specs.Lists.{is_distinct};
ghost use Rattle.fq_column.specs.Stream.{Stream, then_stream};
ghost use Rattle.fq_column.specs.Agreement.{AgreeOn, StreamsAgreeOn, marked};
ghost use Rattle.fq_column.specs.declared.cells.Cell.{Cell};
ghost use Rattle.fq_notation.specs.Multiplied.{factor, rescaled, times};
ghost use Rattle.fq_notation.specs.Notation.{Named};
ghost use Rattle.fq_notation.specs.Scales.{ScaleRange, is_possible};
ghost use Rattle.fq_notation.specs.declared.followed.Followed.{Followed};
ghost use Rattle.fq_notation.specs.declared.followed.Followed.TheVariants.{Numbers};
ghost use Rattle.fq_expr.specs.Expression.{Expression, Step};
ghost use Rattle.fq_expr.specs.Followed.{followed};
ghost use Rattle.fq_expr.specs.Homogeneous.{is_homogeneous};
ghost use Rattle.fq_expr.specs.Kinds.{step_schema};
ghost use Rattle.fq_expr.specs.Needed.{names_read, needed_before};
ghost use Rattle.fq_expr.specs.Steps.{apply_step, apply_steps};
ghost use Rattle.fq_expr.specs.Value.{value_of};

/// Row-wise steps on two streams joined are the steps on each, joined: so a file cut into batches means what the whole
/// file means.
pub fn steps_of_joined_streams<F>()
    ensures { (overflow : ℕ → ℕ → F) (n : ℕ) (fields : Fields) (steps : List Step) (u v : Stream F) →
        apply_steps overflow n fields steps (then_stream u v)
        ≡ then_stream (apply_steps overflow n fields steps u) (apply_steps overflow n fields steps v) }
{}

/// The columns that an expression does not name are not part of its value: rows that agree in those that it names give it the same
/// value, or both a fault.
pub fn value_of_read_columns()
    ensures { (fields : Fields) (e : Expression) (row other : Row) → AgreeOn (marked (names_read e) fields) row other →
        value_of fields e row ≡ value_of fields e other }
{}

/// The columns that a row-wise step does not need are not part of what it makes of those that are needed after it: it takes streams
/// that agree in the columns that it needs to streams that agree in these, with the same end.
pub fn step_on_needed_columns<F>()
    ensures { (overflow : ℕ → ℕ → F) (n : ℕ) (fields after : Fields) (step : Step) (needed : List Name) (u v : Stream F) →
        IsTrue (is_distinct same_name (names_of fields)) → step_schema fields step ≡ Ok after →
        StreamsAgreeOn (marked (needed_before step needed) fields) u v →
        StreamsAgreeOn (marked needed after) (apply_step overflow n fields step u) (apply_step overflow n fields step v) }
{}

/// The scale that is read of an expression is possible, and no other is.
pub fn scale_that_is_read()
    ensures possible { (fields : Fields) (named : List Named) (e : Expression) (scales : ScaleRange) (n : ℕ) →
        followed fields named e ≡ Some (Numbers scales) → scales.read ≡ Some n → IsTrue (is_possible scales n) }
    ensures alone { (fields : Fields) (named : List Named) (e : Expression) (scales : ScaleRange) (n m : ℕ) →
        followed fields named e ≡ Some (Numbers scales) → scales.read ≡ Some n → IsTrue (is_possible scales m) → m ≡ n }
{}

/// Scales are right whatever a place after the point counts for: if each int of a column of scale s is multiplied by r to the power s, so
/// is the value of an expression, by its own scale, unless it overflows. The expression has no literal numbers, and each quotient of
/// numbers in it is of two sides of one scale.
pub fn value_keeps_scale()
    ensures read { (fields : Fields) (named : List Named) (e : Expression) (scales : ScaleRange) →
        IsTrue (is_homogeneous fields named e) → followed fields named e ≡ Some (Numbers scales) → IsSome scales.read }
    ensures multiplied { (r : ℕ) (fields : Fields) (named : List Named) (e : Expression) (f : Followed) (row : Row) (cell : Cell) → 0 < r →
        IsTrue (is_homogeneous fields named e) → followed fields named e ≡ Some f →
        value_of fields e (rescaled r fields named row) ≡ Some cell → option_map (times (factor r f)) (value_of fields e row) ≡ Some cell }
{}
