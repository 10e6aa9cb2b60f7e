//! Laws of the definitions that the contracts cite. The functions do nothing: what they show stands in their contracts.
ghost use Rattle.std.specs.Prelude.{◌≡◌, ◌↔◌, ℕ, List, [], ◌++◌, length, Contains};
ghost use mathlib.Core.List.{IsPrefix};
ghost use Rattle.fq_lanes.specs.Due.{due};
ghost use Rattle.fq_lanes.specs.Refusals.{Accepted, refused_of};
ghost use Rattle.fq_lanes.specs.Schedule.{IsSchedule, worked_items};
ghost use Rattle.fq_lanes.specs.declared.events.Event.{Event};

/// What is due of the events accepted so far begins what is due of all.
pub fn due_grows<T>()
    ensures { (files : ℕ) (events more : List (Event T)) → Accepted files (events ++ more) →
        IsPrefix (due events files) (due (events ++ more) files) }
{}

/// What is due is told by which events were accepted, and not by their order.
pub fn due_of_the_set<T>()
    ensures { (files : ℕ) (events others : List (Event T)) → Accepted files events → Accepted files others →
        ((e : Event T) → Contains events e ↔ Contains others e) → due events files ≡ due others files }
{}

/// In whatever order workers are done, while each offer is within its file's window no event is refused, and in the end
/// the work on each file's items is due, by file, then serial.
pub fn schedules_settle<X, O>()
    ensures { (work : ℕ → X → O) (items : List (List X)) (workers : List (List (ℕ × ℕ × X))) (events : List (Event O)) →
        IsSchedule work items workers events →
        Accepted (length items) events × (refused_of (length items) 0 [] events ≡ []) × (due events (length items) ≡ worked_items work items) }
{}
