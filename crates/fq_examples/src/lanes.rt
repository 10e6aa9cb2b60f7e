//! Items in their order, the sink, and the round's schedule.
ghost use Rattle.fq_lanes.specs.Examples.{DriveExamples, SinkExamples, ScheduleExample};

/// The examples of the definitions of `fq_lanes`.
pub fn worked_examples()
    ensures drive { DriveExamples }
    ensures sink { SinkExamples }
    ensures schedule { ScheduleExample }
{}
