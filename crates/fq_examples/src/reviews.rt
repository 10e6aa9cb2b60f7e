//! The kinds that fields allow.
ghost use Rattle.std.specs.Prelude.{◌≡◌, ◌∷◌, [], codes};
ghost use Rattle.fq_column.specs.declared.cells.Kind.TheVariants as kind;
ghost use Rattle.fq_notation.specs.declared.notations.Notation.TheVariants.{Plain, Decimal, Date};
ghost use Rattle.fq_review.specs.Drafted.{drafted_kind};

/// Columns and their kinds.
pub fn worked_kinds()
    ensures ints { drafted_kind [] Plain (codes "1" ∷ codes "-20" ∷ [] ∷ codes "0" ∷ []) ≡ kind.Whole }
    ensures zeros { drafted_kind [] Plain (codes "1" ∷ codes "007" ∷ []) ≡ kind.Text }
    ensures pluses { drafted_kind [] Plain (codes "+1" ∷ []) ≡ kind.Text }
    ensures bools { drafted_kind [] Plain (codes "true" ∷ codes "FALSE" ∷ []) ≡ kind.Truth }
    ensures mixed { drafted_kind [] Plain (codes "true" ∷ codes "1" ∷ []) ≡ kind.Text }
    ensures nulls { drafted_kind (codes "N/A" ∷ []) Plain (codes "N/A" ∷ codes "5" ∷ []) ≡ kind.Whole }
    ensures nothing { drafted_kind [] Plain ([] ∷ []) ≡ kind.Text }
    ensures decimals { drafted_kind [] (Decimal 2) (codes "12.5" ∷ codes "+3" ∷ [] ∷ codes "007" ∷ []) ≡ kind.Whole }
    ensures places { drafted_kind [] (Decimal 2) (codes "12.5" ∷ codes "0.125" ∷ []) ≡ kind.Text }
    ensures days { drafted_kind [] Date (codes "2024-02-29" ∷ []) ≡ kind.Whole }
    ensures no_day { drafted_kind [] Date (codes "2024-02-29" ∷ codes "2023-02-29" ∷ []) ≡ kind.Text }
    ensures noted_nothing { drafted_kind [] Date ([] ∷ []) ≡ kind.Whole }
{}
