//! Reads that a signal interrupts.
ghost use Rattle.std.specs.Prelude.{◌≡◌, ◌≢◌, IfErr, IfNone, IfSome, IsErrAnd};
ghost use Rattle.std.specs.Io.{ReadsAtMost};
ghost use Rattle.std.specs.Io.KnownBytes.{ReadConsumes};
ghost use Rattle.std.specs.IoError.{error_kind};

use std::io;
use std::io::{ErrorKind, Read};

/// A reader whose reads are tried again if a signal interrupts them, as those of `read_to_end` are.
#[derive(Drop)]
pub(crate) struct Retrying<R> {
    pub(crate) reader: R,
}

impl<R: Read> Read for Retrying<R> {
    ghost remaining = { λ r. R.remaining r.reader };

    fn read(&mut self, buffer: &mut [u8]) -> io::Result<usize>
        ensures bound { ReadsAtMost result buffer.new }
        ensures bytes { ReadConsumes (R.remaining self.old.reader) (R.remaining self.new.reader) result buffer.new }
        ensures retried { IfErr result (λ error. error_kind error ≢ ErrorKind.Interrupted) }
    {
        for _ in 0..u64::MAX {
            if let Some(answer) = unless_interrupted(self.reader.read(buffer)) {
                return answer;
            }
        }
        // never reached: no run lives through so many rounds
        Err(io::Error::from(ErrorKind::Other))
    }
}

// The answer of a read as it is, or nothing if a signal interrupted it.
fn unless_interrupted(answer: io::Result<usize>) -> Option<io::Result<usize>>
    ensures same { IfSome result (λ a. (a ≡ answer) × IfErr answer (λ error. error_kind error ≢ ErrorKind.Interrupted)) }
    ensures interrupted { IfNone result (IsErrAnd answer (λ error. error_kind error ≡ ErrorKind.Interrupted)) }
{
    match answer {
        Err(error) if error.kind() == ErrorKind::Interrupted => None,
        answer => Some(answer),
    }
}
