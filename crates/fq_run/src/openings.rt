//! What a run starts from: the feeds of the files, and the sources with no rows.
ghost use Rattle.std.specs.Prelude.{◌≡◌, ◌≤◌, ◌++◌, ◌∷◌, [], flat_map, map, replicate, vec_len, IfOk};
ghost use Rattle.fq_run.specs.EngineRun.{no_rows, opened};

use crate::file_feeds::FileFeed;
use crate::gathering::SideSource;
use fq_column::Memory;
use fq_csv::{Layout, MAX_BATCH_SIZE, MAX_FILES, SourceFiles};
use std::alloc::Global;
use std::io::Read;

/// How each file is read, in argument order.
pub(crate) fn file_layouts(
    alloc: Global,
    sides: &[SourceFiles],
    main: &SourceFiles,
) -> Result<Vec<Layout>, Memory>
    ensures { IfOk result (λ layouts. layouts.items ≡ flat_map (λ s. replicate s.files s.layout) (sides.now ++ main.now ∷ [])) }
{
    let mut layouts = Vec::new(alloc);
    for source in sides {
        push_layouts(alloc, &mut layouts, source)?;
    }
    push_layouts(alloc, &mut layouts, main)?;
    Ok(layouts)
}

// Appends the layout of each file of a source.
fn push_layouts(
    alloc: Global,
    layouts: &mut Vec<Layout>,
    source: &SourceFiles,
) -> Result<(), Memory>
    ensures { IfOk result (λ _. layouts.new.items ≡ layouts.old.items ++ replicate source.now.files source.now.layout) }
{
    for _ in 0..source.files {
        layouts.push(source.layout.copy(alloc)?)?;
    }
    Ok(())
}

/// The feeds of the files, in argument order, each with its layout.
pub(crate) fn open_feeds<R: Read + Drop>(
    alloc: Global,
    layouts: Vec<Layout>,
    inputs: Vec<R>,
    batch_size: u32,
) -> Result<Vec<FileFeed<R>>, Memory>
    requires some { 1 ≤ batch_size }
    requires not_too_many { batch_size ≤ MAX_BATCH_SIZE }
    requires few { vec_len inputs ≤ MAX_FILES }
    requires one_each { vec_len layouts ≡ vec_len inputs }
    ensures { IfOk result (λ feeds. feeds.items ≡ opened R.remaining batch_size 0 layouts.items inputs.items) }
{
    let mut feeds = Vec::with_capacity(alloc, inputs.len())?;
    let mut layouts = layouts.into_iter();
    for reader in inputs {
        let Some(layout) = layouts.next() else {
            unreachable!()
        };
        let file = feeds.len() as u16;
        feeds.push(FileFeed::new(alloc, reader, file, layout, batch_size)?)?;
    }
    Ok(feeds)
}

/// The sources before the main one, with no rows.
pub(crate) fn empty_sources(alloc: Global, sides: &[SourceFiles]) -> Result<Vec<SideSource>, Memory>
    ensures { IfOk result (λ sources. sources.items ≡ map (λ s. no_rows s.files s.layout.schema) sides.now) }
{
    let mut sources = Vec::with_capacity(alloc, sides.len())?;
    for source in sides {
        let schema = source.layout.schema.copy(alloc)?;
        sources.push(SideSource::new(alloc, source.files, schema)?)?;
    }
    Ok(sources)
}
