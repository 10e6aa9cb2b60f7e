//! Why a plan, or a part of one, is refused, and where that part stands.
use fq_column::Memory;
use std::alloc::{AllocError, AllocFailed, Global};
use std::fmt;
use std::fmt::{Display, Formatter, Write};

/// A member of an object, an item of an array, or a place in a text, its line and its column from 1.
#[derive(Clone, Copy)]
pub enum Segment {
    Member(&'static str),
    Item(usize),
    Text { line: usize, column: usize },
}

/// Why a text spells no plan, and where, or what the check refuses in a plan.
///
/// It goes right after the name of the plan's file: the line and the column if the text is not JSON, as in
/// `:3:7: found "#"; JSON has no comments`, or else the path to the first part that does not fit, as in
/// `: steps[2].filter: null is not an expression`.
#[derive(Drop)]
pub struct Reason {
    // from the part out to the whole
    path: Vec<Segment>,
    pub(crate) text: String,
}

/// Why there is no such part: for a reason, or since an allocation failed.
#[derive(Drop)]
pub enum PartFault {
    Wrong(Reason),
    Memory,
}

/// A part of a plan, or why there is none.
pub type Explained<T = ()> = Result<T, PartFault>;

impl From<Memory> for PartFault {
    ghost use Rattle.std.specs.Prelude.{◌≡◌};
    ghost use Rattle.fq_language.specs.declared.reasons.PartFault.TheVariants as fault;

    ghost from_gives = { λ _ e. e ≡ fault.Memory };

    fn from(_failed: Memory) -> PartFault {
        PartFault::Memory
    }
}

impl From<AllocError> for PartFault {
    ghost use Rattle.std.specs.Prelude.{◌≡◌};
    ghost use Rattle.fq_language.specs.declared.reasons.PartFault.TheVariants as fault;

    ghost from_gives = { λ _ e. e ≡ fault.Memory };

    fn from(_failed: AllocError) -> PartFault {
        PartFault::Memory
    }
}

impl<T: Drop> From<AllocFailed<T>> for PartFault {
    ghost use Rattle.std.specs.Prelude.{◌≡◌};
    ghost use Rattle.fq_language.specs.declared.reasons.PartFault.TheVariants as fault;

    ghost from_gives = { λ _ e. e ≡ fault.Memory };

    fn from(_failed: AllocFailed<T>) -> PartFault {
        PartFault::Memory
    }
}

/// Returns why there is no part, as a format says.
macro_rules! bail {
    ($alloc:expr, $($format:tt)+) => {{
        let text = format!(in $alloc; $($format)+);
        return Err($crate::reasons::PartFault::of($alloc, text))
    }};
}

pub(crate) use bail;

impl Reason {
    /// What a text says of a whole.
    pub(crate) fn new(alloc: Global, text: String) -> Reason {
        Reason {
            path: Vec::new(alloc),
            text,
        }
    }

    /// The reason, seen from what its part stands in.
    pub(crate) fn within(mut self, segment: Segment) -> Result<Reason, Memory> {
        self.path.push(segment)?;
        Ok(self)
    }
}

impl PartFault {
    ghost use Rattle.std.specs.Prelude.{◌≡◌};
    ghost use Rattle.fq_language.specs.declared.reasons.PartFault.TheVariants as fault;

    /// The reason that a text says, if there was memory for the text.
    pub fn of(alloc: Global, text: Result<String, AllocError>) -> PartFault {
        match text {
            Ok(text) => PartFault::Wrong(Reason::new(alloc, text)),
            Err(_) => PartFault::Memory,
        }
    }

    /// The fault, seen from what its part stands in.
    pub fn within(self, segment: Segment) -> PartFault
        ensures { self ≡ fault.Memory → result ≡ fault.Memory }
    {
        match self {
            PartFault::Wrong(reason) => match reason.within(segment) {
                Ok(reason) => PartFault::Wrong(reason),
                Err(Memory) => PartFault::Memory,
            },
            PartFault::Memory => PartFault::Memory,
        }
    }
}

impl Display for Reason {
    fn fmt<W: Write>(&self, f: &mut Formatter<W>) -> fmt::Result {
        for (depth, segment) in self.path.iter().rev().enumerate() {
            let before = if depth == 0 { ": " } else { "." };
            match segment {
                Segment::Member(name) => write!(f, "{before}{name}")?,
                Segment::Item(number) => write!(f, "[{number}]")?,
                Segment::Text { line, column } => write!(f, ":{line}:{column}")?,
            }
        }
        write!(f, ": {}", self.text)
    }
}
