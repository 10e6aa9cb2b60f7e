//! Laws of the definitions, proved for all values.
ghost use Rattle.std.specs.Prelude.{◌≡◌, ℕ, All, List, is_some, true};
ghost use Rattle.std.specs.Str.{is_utf8};
ghost use Rattle.fq_notation.specs.declared.notations.Notation.{Notation};
ghost use Rattle.fq_csv.specs.Field.{cell_under};
ghost use Rattle.fq_review.specs.Drafted.{drafted_kind};

/// Each field of a column is a cell of the kind that they draft together, in the notation of the column, if its bytes are UTF-8.
pub fn drafted_cells()
    ensures { (nulls : List (List ℕ)) (notation : Notation) (fields : List (List ℕ)) → All (λ field. is_utf8 field ≡ true → is_some (cell_under nulls (drafted_kind nulls notation fields) notation field) ≡ true) fields }
{}
