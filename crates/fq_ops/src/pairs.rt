//! Pairs of places that a join puts together.
ghost use Rattle.std.specs.Prelude.{◌≡◌, ◌++◌, [], ◌∷◌, map, length, IfOk, IfSome, OnOk};
ghost use Rattle.fq_ops.specs.Pairs.{AreMarks};

use fq_column::Memory;
use std::alloc::Global;
use std::marker::Model;

/// Pairs of a left place and a right one, or none, kept as two lists for gathering whole columns.
#[derive(Drop)]
pub struct Pairs {
    left: Vec<usize>,
    right: Vec<Option<usize>>,
}

impl Model for Pairs {
    ghost use Rattle.std.specs.Prelude.{◌≡◌, List, length, zip};
    ghost use Rattle.fq_ops.specs.Pairs.{Pair};

    ghost Value = { List Pair };

    ghost view = { λ p. zip p.left.items p.right.items };

    ghost invariant = { λ p. length p.left.items ≡ length p.right.items };
}

impl Pairs {
    /// No pair, with room for this many.
    pub fn with_capacity(alloc: Global, capacity: usize) -> Result<Pairs, Memory>
        ensures { IfOk result (λ pairs. pairs ≡ []) }
    {
        let left = Vec::with_capacity(alloc, capacity)?;
        let right = Vec::with_capacity(alloc, capacity)?;
        Ok(Pairs { left, right })
    }

    /// How many pairs there are.
    pub fn len(&self) -> usize
        ensures { result ≡ length self.now }
    {
        self.left.len()
    }

    /// Appends a pair.
    pub fn push(&mut self, left: usize, right: Option<usize>) -> Result<(), Memory>
        ensures { OnOk result (self.new ≡ self.old ++ (left, right) ∷ []) }
    {
        self.left.push(left)?;
        let Ok(()) = self.right.push(right) else {
            self.left.truncate(self.right.len());
            return Err(Memory);
        };
        Ok(())
    }

    /// Marks of this many left rows, true for those that stand in a pair, if they come in their order and none twice; `None` if not.
    pub fn left_marks(&self, alloc: Global, rows: usize) -> Result<Option<Vec<bool>>, Memory>
        ensures rows { IfOk result (λ o. IfSome o (λ marks. length marks.items ≡ rows)) }
        ensures marks { IfOk result (λ o. IfSome o (λ marks. AreMarks marks.items (map (λ p. p.0) self.now))) }
    {
        let mut marks = Vec::with_capacity(alloc, rows)?;
        for place in self.left() {
            if *place < marks.len() || *place >= rows {
                return Ok(None);
            }
            marks.resize(*place, false)?;
            marks.push(true)?;
        }
        marks.resize(rows, false)?;
        Ok(Some(marks))
    }

    /// The left places.
    pub fn left(&self) -> &[usize]
        ensures { result.now ≡ map (λ p. p.0) self.now }
    {
        self.left.as_slice()
    }

    /// The right places.
    pub fn right(&self) -> &[Option<usize>]
        ensures { result.now ≡ map (λ p. p.1) self.now }
    {
        self.right.as_slice()
    }
}
