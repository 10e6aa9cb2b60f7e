//! The limits of plans, files and runs, as numbers.
ghost use Rattle.std.specs.Prelude.{◌≡◌, ◌∷◌, [], Err, None, Ok, Some, codes, map, pos};
ghost use Rattle.fq_column.specs.Lists.{numbers};
ghost use Rattle.fq_column.specs.Refusal.{first_refusal};
ghost use Rattle.fq_column.specs.Schema.{schema_checks};
ghost use Rattle.fq_column.specs.declared.cells.Kind.TheVariants.{Whole};
ghost use Rattle.fq_column.specs.declared.faults.StepFault.TheVariants.{TooMany, Window};
ghost use Rattle.fq_column.specs.declared.schemas.TheConstants.{MAX_COLUMNS};
ghost use Rattle.fq_csv.specs.Taking.{record_fault};
ghost use Rattle.fq_csv.specs.declared.faults.ScanFault.TheVariants.{TooLong};
ghost use Rattle.fq_csv.specs.declared.scanning.scanners.TheConstants.{MAX_BATCH_SIZE, MAX_ROWS};
ghost use Rattle.fq_csv.specs.declared.sources.TheConstants.{MAX_FILES};
ghost use Rattle.fq_expr.specs.declared.fronts.TheConstants.{MAX_STEPS};
ghost use Rattle.fq_lanes.specs.declared.feeds.TheConstants.{MAX_FEEDS};
ghost use Rattle.fq_lanes.specs.declared.file_state.TheConstants.{SLOTS};
ghost use Rattle.fq_lanes.specs.declared.lanes.TheConstants.{MAX_CAPACITY};
ghost use Rattle.fq_lanes.specs.declared.work.TheConstants.{MAX_WORKERS};
ghost use Rattle.fq_language.specs.declared.plans.TheConstants.{MAX_NULL_VALUES, MAX_SOURCES};
ghost use Rattle.fq_messages.specs.declared.inputs.TheConstants.{MAX_READS};
ghost use Rattle.fq_ops.specs.Roll.{roll_schema};
ghost use Rattle.fq_ops.specs.declared.groups.TheConstants.{MAX_GROUPED_ROWS};
ghost use Rattle.fq_ops.specs.declared.rolls.TheConstants.{MAX_WINDOW};
ghost use Rattle.fq_run.specs.Run.{start_refusal};
ghost use Rattle.fq_run.specs.declared.faults.Fault.TheVariants.{Setting};
ghost use Rattle.fq_run.specs.declared.operators.joining.TheConstants.{MAX_JOINED_ROWS};

/// Each limit that a definition names is this number.
pub fn limits()
    ensures columns { MAX_COLUMNS ≡ 64 }
    ensures steps { MAX_STEPS ≡ 64 }
    ensures sources { MAX_SOURCES ≡ 8 }
    ensures files { MAX_FILES ≡ 16 }
    ensures null_values { MAX_NULL_VALUES ≡ 16 }
    ensures rows_of_a_file { MAX_ROWS ≡ 2147483647 }
    ensures batch_size { MAX_BATCH_SIZE ≡ 65536 }
    ensures workers { MAX_WORKERS ≡ 16 }
    ensures feeds { MAX_FEEDS ≡ 16 }
    ensures slots { SLOTS ≡ 8 }
    ensures capacity { MAX_CAPACITY ≡ 65536 }
    ensures window { MAX_WINDOW ≡ 65536 }
    ensures joined_rows { MAX_JOINED_ROWS ≡ 4294967295 }
    ensures grouped_rows { MAX_GROUPED_ROWS ≡ 1099511627776 }
    ensures reads { MAX_READS ≡ 4294967296 }
{}

/// What has as many as a limit says is taken, and with one more it is refused.
pub fn worked_limits()
    ensures batch_size { start_refusal 1 1 65536 1 ≡ None }
    ensures past_batch_size { start_refusal 1 1 65537 1 ≡ Some Setting }
    ensures workers { start_refusal 1 1 1 16 ≡ None }
    ensures past_workers { start_refusal 1 1 1 17 ≡ Some Setting }
    ensures rows { record_fault 3 2147483647 2147483647 ≡ None }
    ensures past_rows { record_fault 3 2147483647 2147483648 ≡ Some (TooLong 3) }
    ensures columns { first_refusal (schema_checks (map (λ i. i ∷ []) (numbers 64))) ≡ None }
    ensures past_columns { first_refusal (schema_checks (map (λ i. i ∷ []) (numbers 65))) ≡ Some TooMany }
    ensures window { roll_schema ((codes "v", Whole) ∷ []) (codes "v") (pos 65536) (pos 65536) (codes "v") ≡ Ok ((codes "v", Whole) ∷ []) }
    ensures past_window { roll_schema ((codes "v", Whole) ∷ []) (codes "v") (pos 65537) (pos 1) (codes "v") ≡ Err Window }
{}
