//! Printed text, in pieces.
ghost use Rattle.std.specs.Prelude.{◌≡◌, ◌++◌, IfOk, IfErr, OnOk};
ghost use Rattle.std.specs.Io.KnownBytes.{Appends};
ghost use Rattle.fq_csv.specs.Printed.{printed_names};
ghost use Rattle.fq_run.specs.PrintedText.{rows_text, text_of};
ghost use Rattle.fq_run.specs.declared.faults.Fault.TheVariants as fault;

use crate::faults::Fault;
use fq_column::{Batch, Memory, Schema};
use fq_csv::{print_names, print_rows};
use fq_notation::Notations;
use std::alloc::Global;
use std::io::Write;

/// CSV text in the pieces in which it was printed, so that it grows without being copied.
#[derive(Drop)]
pub(crate) struct PrintedText {
    pieces: Vec<Vec<u8>>,
}

impl PrintedText {
    /// The names of columns.
    pub(crate) fn of_names(alloc: Global, schema: &Schema) -> Result<PrintedText, Memory>
        ensures { IfOk result (λ text. text_of text ≡ printed_names schema.now) }
    {
        let mut pieces = Vec::new(alloc);
        pieces.push(print_names(alloc, schema)?)?;
        Ok(PrintedText { pieces })
    }

    /// The rows of batches, in these notations.
    pub(crate) fn of_rows(
        alloc: Global,
        batches: Vec<Batch>,
        notations: &Notations,
    ) -> Result<PrintedText, Memory>
        ensures { IfOk result (λ text. text_of text ≡ rows_text notations.now batches.items) }
    {
        let mut pieces = Vec::with_capacity(alloc, batches.len())?;
        for batch in batches {
            pieces.push(print_rows(alloc, &batch, notations)?)?;
        }
        Ok(PrintedText { pieces })
    }

    /// Moves another text to the end of this one.
    pub(crate) fn append(&mut self, more: PrintedText) -> Result<(), Memory>
        ensures { OnOk result (text_of self.new ≡ text_of self.old ++ text_of more) }
    {
        let PrintedText { pieces } = more;
        let mut pieces = pieces;
        self.pieces.append(&mut pieces)?;
        Ok(())
    }

    /// Writes the text after what a writer holds. `Write` if the writer fails; it has then taken an unknown part.
    pub(crate) fn write_to<W: Write>(&self, out: &mut W) -> Result<(), Fault>
        ensures written { OnOk result (Appends (W.contents out.old) (W.contents out.new) (text_of self.now)) }
        ensures refused { IfErr result (λ f. f ≡ fault.Write) }
    {
        for piece in &self.pieces {
            if out.write_all(piece.as_slice()).is_err() {
                return Err(Fault::Write);
            }
        }
        Ok(())
    }
}
