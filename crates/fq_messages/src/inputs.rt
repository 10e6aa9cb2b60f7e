//! What is read into memory: an input as a whole, and its two parts, a plan's line and the file after it.
ghost use Rattle.std.specs.Prelude.{◌≡◌, ◌⊎◌, ℕ, List, Some, IfOk, IfErr};
ghost use Rattle.fq_messages.specs.Input.{plan_line, file_after};

use crate::failures::Failure;
use fq_shell::{OpenFault, Opener};
use std::alloc::Global;
use std::io;
use std::io::{ErrorKind, Read};

/// The most reads of one input.
pub const MAX_READS: u64 = 4_294_967_296;

/// A reader of the file of this name. If it cannot be opened, the answer is `failure`.
pub fn open<O: Opener>(files: &mut O, name: &str, failure: Failure) -> Result<O::Reader, Failure>
    ensures same { O.bytes_of files.new ≡ O.bytes_of files.old }
    ensures told { (bytes : List ℕ) → O.bytes_of files.old name.now ≡ Some bytes → IfOk result (λ reader. O.Reader.remaining reader ≡ Some bytes) }
    ensures failed { IfErr result (λ f. (f ≡ failure) ⊎ (f ≡ Failure.MEMORY)) }
{
    match files.reader_of(name) {
        Ok(reader) => Ok(reader),
        Err(OpenFault::Failed(_)) => Err(failure),
        Err(OpenFault::Memory) => Err(Failure::MEMORY),
    }
}

/// All bytes of a reader. If a read fails, or 4,294,967,296 reads do not reach the end, the answer is `failure`.
pub fn read_whole<R: Read + Drop>(
    alloc: Global,
    reader: R,
    failure: Failure,
) -> Result<Vec<u8>, Failure>
    ensures bytes { (bytes : List ℕ) → R.remaining reader ≡ Some bytes → IfOk result (λ all. all.items ≡ bytes) }
    ensures failed { IfErr result (λ f. (f ≡ failure) ⊎ (f ≡ Failure.MEMORY)) }
{
    let mut bytes = Vec::new(alloc);
    let mut reader = Limited {
        reader,
        reads_left: MAX_READS,
    };
    match reader.read_to_end(&mut bytes) {
        Ok(_) => Ok(bytes),
        Err(error) if error.kind() == ErrorKind::OutOfMemory => Err(Failure::MEMORY),
        Err(_) => Err(failure),
    }
}

// A reader that fails after so many reads.
#[derive(Drop)]
struct Limited<R> {
    reader: R,
    reads_left: u64,
}

impl<R: Read> Read for Limited<R> {
    ghost remaining = { λ p. R.remaining p.reader };

    fn read(&mut self, buffer: &mut [u8]) -> io::Result<usize> {
        if self.reads_left == 0 {
            return Err(io::Error::from(ErrorKind::Other));
        }
        self.reads_left -= 1;
        self.reader.read(buffer)
    }
}

/// The bytes before the first line feed, or all of them, and the bytes after it.
pub fn split_line(input: &[u8]) -> (&[u8], &[u8])
    ensures line { result.0.now ≡ plan_line input.now }
    ensures file { result.1.now ≡ file_after input.now }
{
    for i in 0..input.len() {
        if input[i] == b'\n' {
            return (&input[..i], &input[i + 1..]);
        }
    }
    (input, &input[input.len()..])
}
