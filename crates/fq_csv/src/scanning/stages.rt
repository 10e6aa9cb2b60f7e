//! How far a scan of a file has come.
ghost use Rattle.std.specs.Prelude.{◌≡◌, Some, IsSome};
ghost use Rattle.fq_csv.specs.Stage.{ending_of};

use crate::faults::ScanFault;

/// How far a scan has come.
#[derive(Clone, Copy, Debug)]
pub enum Stage {
    /// No record was read.
    Header,
    /// The header was read, and rows may follow.
    Rows,
    /// The rows have ended, by a fault of the file's or at its end.
    Closed(Option<ScanFault>),
    /// The reader or an allocation failed.
    Failed(ScanFault),
}

impl Stage {
    /// The fault by which the rows have ended, if they did by one.
    pub(crate) fn fault(self) -> Option<ScanFault>
        requires { IsSome (ending_of self) }
        ensures { ending_of self ≡ Some result }
    {
        match self {
            Stage::Closed(fault) => fault,
            Stage::Failed(fault) => Some(fault),
            Stage::Header | Stage::Rows => unreachable!(),
        }
    }
}
