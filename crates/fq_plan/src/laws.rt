//! Laws of the definitions, proved for all values.
ghost use Rattle.std.specs.Prelude.{◌≡◌, ◌<◌, ◌≤◌, ℕ, [], All, IsOk, List, drop, length, map};
ghost use Rattle.fq_column.specs.Frame.{Fields, Frame, Row};
ghost use Rattle.fq_column.specs.Stream.{Stream, done, rename_fault};
ghost use Rattle.fq_csv.specs.Printed.{printed, printed_in};
ghost use Rattle.fq_csv.specs.Sources.{but_last};
ghost use Rattle.fq_csv.specs.declared.faults.ScanFault.{ScanFault};
ghost use Rattle.fq_expr.specs.Expression.{Step as RowWise};
ghost use Rattle.fq_expr.specs.Front.{fault_at};
ghost use Rattle.fq_expr.specs.Steps.{apply_steps};
ghost use Rattle.fq_expr.specs.declared.fronts.RowFault.{RowFault};
ghost use Rattle.fq_plan.specs.Cuts.{GiveTheSameRows};
ghost use Rattle.fq_plan.specs.Meaning.{meaning, meaning_of_files};
ghost use Rattle.fq_plan.specs.Noted.{noted};
ghost use Rattle.fq_plan.specs.Needed.{AreWide, DifferInUnneeded, needed_alone};
ghost use Rattle.fq_language.specs.Judged.{judged};
ghost use Rattle.fq_language.specs.Plan.{PlanData, file_streams, files_wanted, main_fields, side_files};
ghost use Rattle.fq_run.specs.Sources.{row_fault};
ghost use Rattle.fq_plan.specs.Tail.{all_items, outcome_of_taken};
ghost use Rattle.fq_run.specs.declared.faults.Fault.{Fault as AnyFault};
ghost use Rattle.fq_run.specs.declared.faults.Fault.TheVariants.{Overflow as overflow};

/// What a run's tail makes of the items of all files, each worked on by itself, is what the plan means over the files' streams,
/// whatever the size of a batch.
pub fn meaning_of_items()
    ensures { (p : PlanData) (batch_size : ℕ) (us : List (Stream AnyFault)) → 0 < batch_size → length us ≤ files_wanted p →
        outcome_of_taken p (all_items p batch_size us) ≡ meaning_of_files p us }
{}

/// How the rows of a source are cut into files is not part of the answer: if the files of two plans with the same steps
/// over the same columns have no fault and give each source the same rows, the plans mean the same.
pub fn meaning_of_cut_files()
    ensures { (p q : PlanData) (files other : List (List Row)) → 0 < length p.sources → GiveTheSameRows p q files other →
        meaning p (map done files) ≡ meaning q (map done other) }
{}

/// The columns of its main source that a plan does not need are not part of its answer. If the check does not refuse the plan, and files
/// differ only in what their rows have in these columns, it means the same over both; so it does if there is null in them.
pub fn meaning_of_needed_columns()
    ensures differ { (p : PlanData) (us vs : List (Stream ScanFault)) → IsOk (judged p) → DifferInUnneeded p us vs → meaning p us ≡ meaning p vs }
    ensures alone { (p : PlanData) (us : List (Stream ScanFault)) → IsOk (judged p) → AreWide (but_last p.sources) us →
        All (λ u. All (λ row. length row ≡ length (main_fields p)) u.rows) (drop (side_files p) us) → meaning p us ≡ meaning p (needed_alone p us) }
    ensures files { (p : PlanData) (files : List (List ℕ)) → IsOk (judged p) → 0 < length p.sources →
        meaning p (file_streams p files) ≡ meaning p (needed_alone p (file_streams p files)) }
{}

/// The faults that a worker's row-wise steps name are those of the run under another name.
pub fn renamed_steps()
    ensures { (n : ℕ) (fields : Fields) (steps : List RowWise) (u : Stream RowFault) →
        rename_fault row_fault (apply_steps fault_at n fields steps u) ≡ apply_steps overflow n fields steps (rename_fault row_fault u) }
{}

/// Notations that are given to no column change nothing: files without any are read, and a frame is printed, as if there were no notations.
pub fn meaning_without_notations()
    ensures read { (p : PlanData) (files : List (List ℕ)) → All (λ s. s.notations ≡ []) p.sources → file_streams (noted [] p) files ≡ file_streams p files }
    ensures printed { (p : PlanData) (frame : Frame) → printed_in (noted [] p).notations frame ≡ printed frame }
{}
