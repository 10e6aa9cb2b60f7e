//! What stands between a worker and its lane of answers.

/// Sees each answer that is not a refusal, before it leaves its worker.
pub trait Gate<O> {
    /// A worker's answer to the job of a file and serial.
    fn pass(&self, worker: u16, file: u16, serial: u32, out: &O);
}

/// A gate that does nothing.
pub struct NoGate;

impl<O> Gate<O> for NoGate {
    fn pass(&self, _worker: u16, _file: u16, _serial: u32, _out: &O) {}
}
