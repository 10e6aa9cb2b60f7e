//! Laws of the definitions, proved for all values.
ghost use Rattle.std.specs.Prelude.{◌≡◌, ◌<◌, ◌↔◌, ℕ, All, Bool, IsErr, IsTrue, List, Ok, Some, if◌then◌else◌, length, map, option_map};
ghost use Rattle.fq_column.specs.Agreement.{StreamsAgreeOn, marked};
ghost use Rattle.fq_column.specs.Frame.{Fields, Name, Row, names_of, put_named, same_name};
ghost use Rattle.fq_column.specs.Lists.{is_distinct};
ghost use Rattle.fq_column.specs.Stream.{Stream};
ghost use Rattle.fq_column.specs.Schema.{kind_named};
ghost use Rattle.fq_column.specs.declared.cells.Cell.{Cell};
ghost use Rattle.fq_column.specs.declared.cells.Kind.{Kind};
ghost use Rattle.fq_column.specs.declared.cells.Kind.TheVariants as kind;
ghost use Rattle.fq_notation.specs.Multiplied.{times};
ghost use Rattle.fq_notation.specs.Naming.{column_followed, of_column};
ghost use Rattle.fq_notation.specs.Notation.{Named};
ghost use Rattle.fq_notation.specs.Scales.{only};
ghost use Rattle.fq_notation.specs.declared.followed.Followed.TheVariants.{Days, Numbers};
ghost use Rattle.fq_notation.specs.declared.naming.Said.TheVariants.{Nothing};
ghost use Rattle.fq_notation.specs.declared.notations.Notation.{Notation};
ghost use Rattle.fq_ops.specs.Aggregate.{Output, kind_over, value_of};
ghost use Rattle.fq_ops.specs.Group.{group_stream};
ghost use Rattle.fq_ops.specs.Join.{join_stream, joined_fields};
ghost use Rattle.fq_ops.specs.Multiplied.{keeps_scale};
ghost use Rattle.fq_ops.specs.Needed.{needed_before_groups, needed_before_join, needed_before_roll};
ghost use Rattle.fq_ops.specs.Noted.{function_noted, roll_noted};
ghost use Rattle.fq_ops.specs.Roll.{roll_stream, rolled_at};
ghost use Rattle.fq_ops.specs.declared.aggregates.Function.{Function};
ghost use Rattle.fq_ops.specs.declared.aggregates.Function.TheVariants.{Sum};
ghost use Rattle.fq_ops.specs.declared.joins.How.{How as AnyHow};

/// A join takes left streams that agree in its keys and in the columns that are needed after it to streams that agree in these, with
/// the same end. Its right rows are as wide as their columns.
pub fn join_of_needed_columns<F>()
    ensures { (how : AnyHow) (nulls_equal : Bool) (left right : Fields) (on : List Name) (rows : List Row) (room : ℕ) (too_many : F)
        (needed : List Name) (u v : Stream F) → All (λ row. length row ≡ length right) rows →
        StreamsAgreeOn (marked (needed_before_join on needed) left) u v →
        StreamsAgreeOn (marked needed (joined_fields how left right on))
        (join_stream how nulls_equal left right on rows room too_many u) (join_stream how nulls_equal left right on rows room too_many v) }
{}

/// A grouping of streams that agree in its keys and in the columns that its aggregates read gives the same groups, or the same fault.
pub fn groups_of_needed_columns<F>()
    ensures { (fields : Fields) (keys : List Name) (outputs : List Output) (out_of_range : ℕ → F) (u v : Stream F) →
        StreamsAgreeOn (marked (needed_before_groups keys outputs) fields) u v →
        group_stream fields keys outputs out_of_range u ≡ group_stream fields keys outputs out_of_range v }
{}

/// A rolling sum takes streams that agree in its column, and in those that are needed after it and not put by it, to streams that agree
/// in the columns that are needed after it, with the same end.
pub fn rolling_sum_of_needed_columns<F>()
    ensures { (fields : Fields) (column : Name) (window min_samples : ℕ) (name : Name) (out_of_range : F) (needed : List Name) (u v : Stream F) →
        IsTrue (is_distinct same_name (names_of fields)) →
        StreamsAgreeOn (marked (needed_before_roll column name needed) fields) u v →
        StreamsAgreeOn (marked needed (put_named fields (name, kind.Whole)))
        (roll_stream fields column window min_samples name out_of_range u) (roll_stream fields column window min_samples name out_of_range v) }
{}

/// Aggregates have the scale of their column, or count. If each int of a column is multiplied by m, so are its sum and its least,
/// greatest, first and last values, unless the sum doesn't fit. Its counts stay. If an aggregate's name says nothing, the aggregate stands
/// for what its column stands for, and a count for digits. Only a sum of days is refused.
pub fn aggregates_keep_scale()
    ensures multiplied { (m : ℕ) (f : Function) (cells : List Cell) (cell : Cell) → 0 < m →
        value_of f (map (times m) cells) ≡ Some cell → option_map (times (if keeps_scale f then m else 1)) (value_of f cells) ≡ Some cell }
    ensures noted { (fields : Fields) (named : List Named) (f : Function) (name : Name) (k after : Kind) (n : Notation) →
        kind_named fields name ≡ Ok k → kind_over f k ≡ Ok after → function_noted fields named Nothing f name ≡ Ok n →
        of_column after n ≡ (if keeps_scale f then column_followed fields named name else Numbers (only 0)) }
    ensures refused { (fields : Fields) (named : List Named) (f : Function) (name : Name) →
        IsErr (function_noted fields named Nothing f name) ↔ ((f ≡ Sum) × (column_followed fields named name ≡ Days)) }
{}

/// Rolling sums have the scale of their column. If each int of a column is multiplied by m, so is each rolling sum, unless it doesn't fit.
/// If their name says nothing, the sums stand for what their column stands for. Only those of days are refused.
pub fn rolling_sum_keeps_scale()
    ensures multiplied { (m window min_samples i : ℕ) (cells : List Cell) (cell : Cell) → 0 < m →
        rolled_at window min_samples (map (times m) cells) i ≡ Some cell → option_map (times m) (rolled_at window min_samples cells i) ≡ Some cell }
    ensures noted { (fields : Fields) (named after : List Named) (column name : Name) →
        kind_named fields column ≡ Ok kind.Whole → roll_noted fields named Nothing column name ≡ Ok after →
        column_followed (put_named fields (name, kind.Whole)) after name ≡ column_followed fields named column }
    ensures refused { (fields : Fields) (named : List Named) (column name : Name) →
        IsErr (roll_noted fields named Nothing column name) ↔ (column_followed fields named column ≡ Days) }
{}
