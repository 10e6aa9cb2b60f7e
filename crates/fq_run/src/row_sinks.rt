//! What takes the rows that a plan comes to.
ghost use Rattle.std.specs.Prelude.{◌++◌, List, OnOk};
ghost use Rattle.fq_column.specs.Frame.{Fields, Row};
ghost use Rattle.fq_notation.specs.declared.notations.Notation.{Notation};

use fq_column::{Batch, Memory};

/// Takes rows, batch by batch. Printing is one such; another would write another format.
pub(crate) trait RowSink {
    /// It writes ints in these notations, and has taken just these rows, of these columns.
    ghost has: { List Notation → Self → Fields → List Row → Type 0 };

    /// Takes the rows of a batch, after those before. Not called again after an error.
    fn take(&mut self, batch: Batch) -> Result<(), Memory>
        ensures { OnOk result ((notations : List Notation) (rows : List Row) → has notations self.old batch.fields rows → has notations self.new batch.fields (rows ++ batch.rows)) };

    /// Drops what it has taken.
    fn stop(self);
}
