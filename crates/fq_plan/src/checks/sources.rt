//! The check of a plan's sources.
ghost use Rattle.std.specs.Prelude.{◌≡◌, ◌⊎◌, ◌≤◌, ◌++◌, ◌∷◌, [], ℕ, None, Some, map, string_bytes, vec_len, IfOk, IfErr, OnOk, length};
ghost use Rattle.fq_column.specs.Frame.{names_of};
ghost use Rattle.fq_column.specs.Refusal.{first_refusal};
ghost use Rattle.fq_column.specs.Schema.{schema_checks};
ghost use Rattle.fq_language.specs.Judged.{source_refusal};
ghost use Rattle.fq_csv.specs.Sources.{source_of_files};
ghost use Rattle.fq_language.specs.View.{source_data};
ghost use Rattle.fq_plan.specs.Stages.{IsMemoryAt};

use fq_column::{Kind, Memory, Schema, StepFault};
use fq_csv::{Layout, Projection, SourceFiles};
use fq_language::{CheckFault, Place, Source};
use fq_notation::Notations;
use std::alloc::Global;

/// The sources with their schemas, or the first refusal.
pub fn check_sources(alloc: Global, sources: Vec<Source>) -> Result<Vec<SourceFiles>, CheckFault>
    requires { vec_len sources ≤ 8 }
    ensures sources { IfOk result (λ checked. map source_of_files checked.items ≡ map source_data sources.items) }
    ensures passed { IfOk result (λ checked. source_refusal 0 (map source_data sources.items) ≡ None) }
    ensures refused { IfErr result (λ e. (source_refusal 0 (map source_data sources.items) ≡ Some e) ⊎ ((steps : ℕ) → IsMemoryAt (length sources.items) steps e)) }
{
    let mut checked = Vec::new(alloc);
    for source in sources {
        let place = Place::Source(checked.len() as u16);
        match add_source(alloc, &mut checked, source) {
            Ok(()) => {}
            Err(code) => return Err(CheckFault { place, code }),
        }
    }
    Ok(checked)
}

// One more source with its schema, or its first refusal.
fn add_source(
    alloc: Global,
    checked: &mut Vec<SourceFiles>,
    source: Source,
) -> Result<(), StepFault>
    ensures source { OnOk result (map source_of_files checked.new.items ≡ map source_of_files checked.old.items ++ source_data source ∷ []) }
    ensures passed { OnOk result (first_refusal (schema_checks (names_of (source_data source).fields)) ≡ None) }
    ensures refused { IfErr result (λ code. (first_refusal (schema_checks (names_of (source_data source).fields)) ≡ Some code) ⊎ (code ≡ StepFault.Memory)) }
{
    let Source {
        files,
        columns,
        nulls,
    } = source;
    let (names, kinds) = unzip(alloc, columns)?;
    let schema = Schema::new(names, kinds)?;
    let layout = Layout {
        schema,
        nulls,
        notations: Notations::plain(alloc),
        projection: Projection::all(alloc),
    };
    Ok(checked.push(SourceFiles { files, layout })?)
}

// The names and the kinds of columns.
fn unzip(alloc: Global, columns: Vec<(String, Kind)>) -> Result<(Vec<String>, Vec<Kind>), Memory>
    ensures names { IfOk result (λ p. map string_bytes p.0.items ≡ map (λ c. string_bytes c.0) columns.items) }
    ensures kinds { IfOk result (λ p. p.1.items ≡ map (λ c. c.1) columns.items) }
{
    let mut names = Vec::with_capacity(alloc, columns.len())?;
    let mut kinds = Vec::with_capacity(alloc, columns.len())?;
    for (name, kind) in columns {
        names.push(name)?;
        kinds.push(kind)?;
    }
    Ok((names, kinds))
}
