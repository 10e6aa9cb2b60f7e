//! Plans over files, texts that spell no plan, and plans that the check refuses.
ghost use Rattle.fq_plan.specs.Examples.{FilteredRows, EmptyFiles, FilesInOrder, LogicWithNulls, EarliestRow, GroupSums, GroupOrder, AggregatesOfNulls, JoinedRows, NewJoins, SuffixedNames, RollingSums, WholeNumbers, BadRows, Texts, TruthValues, Division, FileOrStep, UnusedSource, NoPlans, NullTexts, DoubleMembers, RefusedPlans, RefusedStarts, ItemsAtAnySize, NeededColumns, Traces};

/// Plans over files.
pub fn worked_plans()
    ensures filtered { FilteredRows }
    ensures empty { EmptyFiles }
    ensures files { FilesInOrder }
    ensures logic { LogicWithNulls }
    ensures earliest { EarliestRow }
    ensures sums { GroupSums }
    ensures groups { GroupOrder }
    ensures aggregates { AggregatesOfNulls }
    ensures joins { JoinedRows }
    ensures new_joins { NewJoins }
    ensures suffix { SuffixedNames }
    ensures rolling { RollingSums }
    ensures numbers { WholeNumbers }
    ensures bad_rows { BadRows }
    ensures texts { Texts }
    ensures truth { TruthValues }
    ensures division { Division }
    ensures order { FileOrStep }
    ensures unused { UnusedSource }
    ensures null_texts { NullTexts }
{}

/// Texts that spell no plan, and plans that the check refuses.
pub fn worked_refusals()
    ensures no_plan { NoPlans }
    ensures double { DoubleMembers }
    ensures refused { RefusedPlans }
{}

/// Runs that do not start, and what is made of batches.
pub fn worked_runs()
    ensures starts { RefusedStarts }
    ensures items { ItemsAtAnySize }
    ensures traces { Traces }
{}

/// The columns of files that are part of a plan's answer.
pub fn worked_columns()
    ensures needed { NeededColumns }
{}
