//! Which columns of a file are kept.
ghost use Rattle.std.specs.Prelude.{◌≡◌, [], IfOk, slice_index_or, true};

use fq_column::Memory;
use std::alloc::Global;
use std::marker::Model;

/// Which columns of a file are kept, by a mark for each; a column past the marks is kept.
///
/// A field of a column that is not kept is judged as any other, and null stands in its place in the rows, so it costs no memory for its
/// text. A plan that reads only some columns of a wide file asks for this. Polars calls it projection pushdown.
#[derive(Debug, Drop)]
pub struct Projection {
    marks: Vec<bool>,
}

impl Model for Projection {
    ghost use Rattle.std.specs.Prelude.{List, Bool};

    ghost Value = { List Bool };

    ghost view = { λ p. p.marks.items };
}

impl Projection {
    /// All columns, however many there are. Allocates nothing.
    pub fn all(alloc: Global) -> Projection
        ensures { result ≡ [] }
    {
        Projection {
            marks: Vec::new(alloc),
        }
    }

    /// The columns whose marks are true, and those past the marks.
    pub fn new(marks: Vec<bool>) -> Projection
        ensures { result ≡ marks.items }
    {
        Projection { marks }
    }

    /// The same columns in memory of their own. `Memory` if an allocation fails.
    pub fn copy(&self, alloc: Global) -> Result<Projection, Memory>
        ensures { IfOk result (λ p. p ≡ self.now) }
    {
        Ok(Projection {
            marks: Vec::from_slice(alloc, self.marks.as_slice())?,
        })
    }

    /// Whether the column at this place is kept.
    pub(crate) fn keeps(&self, column: usize) -> bool
        ensures { result ≡ slice_index_or self.now column true }
    {
        self.marks.get(column).copied().unwrap_or(true)
    }
}
