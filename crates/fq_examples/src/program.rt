//! Inputs of the program, and what they come to; arguments, and the files that they name.
ghost use Rattle.fq_program.specs.Examples.{Frames, Failures, Statuses, NamedFiles, NamedNotations};
ghost use Rattle.fq_shell.specs.Examples.{Orders, Hyphens, Outputs, Others, Notes, Twice, Checks};

/// Inputs and what they come to.
pub fn worked_inputs()
    ensures frames { Frames }
    ensures failures { Failures }
    ensures statuses { Statuses }
{}

/// Arguments, whether they are those of a run or of a check, and the files that they name.
pub fn worked_arguments()
    ensures orders { Orders }
    ensures hyphens { Hyphens }
    ensures outputs { Outputs }
    ensures others { Others }
    ensures twice { Twice }
    ensures notes { Notes }
    ensures checks { Checks }
{}

/// Runs of files that arguments name, and what they come to.
pub fn worked_runs()
    ensures named { NamedFiles }
    ensures notations { NamedNotations }
{}
