//! Physical plans whose columns have notations.
ghost use Rattle.std.specs.Prelude.{◌≡◌, IfOk, map};
ghost use Rattle.std.specs.List.{list_any};
ghost use Rattle.fq_run.specs.Noted.{has_ints, noted, noted_files, reads_ints};

use crate::physical_plans::PhysicalPlan;
use fq_column::{Kind, Memory, Schema};
use fq_csv::SourceFiles;
use fq_notation::NamedNotations;
use std::alloc::Global;

impl PhysicalPlan {
    /// Whether a source has a column of ints of this name.
    pub fn reads_ints(&self, name: &str) -> bool
        ensures { result ≡ reads_ints self.now.sources name.now }
    {
        have_ints(self.sides.as_slice(), name) || has_ints(&self.main.layout.schema, name)
    }

    /// The plan with its ints in notations by the names of their columns: it reads each source's ints in `named`, and prints the frame's ints
    /// in `last`. `Memory` if an allocation fails.
    pub fn with_notations(
        self,
        alloc: Global,
        named: &NamedNotations,
        last: &NamedNotations,
    ) -> Result<PhysicalPlan, Memory>
        ensures { IfOk result (λ plan. plan ≡ noted named.now last.now self) }
    {
        let notations = last.of_columns(alloc, self.columns())?;
        let PhysicalPlan {
            sides,
            main,
            leading,
            after_leading,
            stages,
            ..
        } = self;
        let sides = noted_sources(alloc, sides, named)?;
        let main = noted_source(alloc, main, named)?;
        let front = leading.front;
        Ok(PhysicalPlan::new(alloc, sides, main, front, after_leading, stages, notations))
    }
}

// Sources whose ints are read in these notations.
fn noted_sources(
    alloc: Global,
    sources: Vec<SourceFiles>,
    named: &NamedNotations,
) -> Result<Vec<SourceFiles>, Memory>
    ensures { IfOk result (λ changed. changed.items ≡ map (noted_files named.now) sources.items) }
{
    let mut changed = Vec::with_capacity(alloc, sources.len())?;
    for source in sources {
        changed.push(noted_source(alloc, source, named)?)?;
    }
    Ok(changed)
}

// A source whose ints are read in these notations.
fn noted_source(
    alloc: Global,
    mut source: SourceFiles,
    named: &NamedNotations,
) -> Result<SourceFiles, Memory>
    ensures { IfOk result (λ changed. changed ≡ noted_files named.now source) }
{
    source.layout.notations = named.of_columns(alloc, &source.layout.schema)?;
    Ok(source)
}

// Whether one of the sources has a column of ints of this name.
fn have_ints(sources: &[SourceFiles], name: &str) -> bool
    ensures { result ≡ list_any (λ s. has_ints s.layout.schema name.now) sources.now }
{
    sources
        .iter()
        .any(|source| has_ints(&source.layout.schema, name))
}

/// Whether one of the columns is of ints and has this name.
pub fn has_ints(columns: &Schema, name: &str) -> bool
    ensures { result ≡ has_ints columns.now name.now }
{
    matches!(columns.kind_of(name), Ok(Kind::Whole))
}
