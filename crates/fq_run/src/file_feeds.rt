//! The items of a file for the engine: its records in runs, and its fault as one item more.
ghost use Rattle.std.specs.Prelude.{◌≡◌, ◌≤◌, IfOk, option_map};
ghost use Rattle.fq_csv.specs.Taking.{record_stream};
ghost use Rattle.fq_run.specs.Feeding.{MayCome, failure_in, scanned_items, some_items};
ghost use Rattle.fq_csv.specs.Sources.{row_limit};

use fq_column::Memory;
use fq_csv::{Layout, MAX_BATCH_SIZE, MAX_ROWS, RecordRun, RecordScanner, ScanFault};
use fq_lanes::{Feed, FeedFault};
use std::alloc::Global;
use std::io::Read;
use std::marker::Model;

/// An item of a file.
#[derive(Drop)]
pub(crate) enum FileItem {
    /// The next records.
    Run(RecordRun),
    /// Why the records ended before the file did; the last item.
    Ended(ScanFault),
}

/// The items of a file, read as they are asked for.
#[derive(Drop)]
pub(crate) struct FileFeed<R: Read> {
    records: RecordScanner<R>,
    // whether the file's fault was given
    ended: bool,
}

impl<R: Read> Model for FileFeed<R> {
    ghost use Rattle.fq_run.specs.Feeding.{Feeding, feeding_of};

    ghost Value = { Feeding };

    ghost view = { λ f. feeding_of f.records f.ended };
}

impl<R: Read> FileFeed<R> {
    /// The feed of the file number `file` with its source's layout, in runs of `run_size` records.
    pub(crate) fn new(
        alloc: Global,
        reader: R,
        file: u16,
        layout: Layout,
        run_size: u32,
    ) -> Result<FileFeed<R>, Memory>
    where
        R: Drop,
        requires some { 1 ≤ run_size }
        requires not_too_many { run_size ≤ MAX_BATCH_SIZE }
        ensures { IfOk result (λ f. f ≡ record {
          most = 2147483648;
          items = option_map (scanned_items file layout run_size 0) (option_map (record_stream file layout.schema row_limit) (R.remaining reader));
        }) }
    {
        let records = RecordScanner::new(alloc, reader, file, layout, run_size, MAX_ROWS)?;
        Ok(FileFeed {
            records,
            ended: false,
        })
    }
}

impl<R: Read> Feed for FileFeed<R> {
    type Item = FileItem;

    ghost gives = { MayCome };

    ghost is_open = { λ f. f.most ≤ 2147483648 };

    ghost most = { λ f. f.most };

    ghost may_fail = { λ _. Unit {0} };

    fn next(&mut self) -> Result<Option<FileItem>, FeedFault> {
        if self.ended {
            return Ok(None);
        }
        match self.records.next_run() {
            Ok(Some(run)) => Ok(Some(FileItem::Run(run))),
            Ok(None) => Ok(None),
            Err(fault) => match failure_of(fault) {
                Some(failure) => Err(failure),
                None => {
                    self.ended = true;
                    Ok(Some(FileItem::Ended(fault)))
                }
            },
        }
    }

    ghost satisfiable = { some_items };

    ghost few = { λ _ few. few };
}

// The failure that the engine is told of where a scan could not go on; none of a fault of the file's text, which is an item.
fn failure_of(fault: ScanFault) -> Option<FeedFault>
    ensures { result ≡ failure_in fault }
{
    match fault {
        ScanFault::Read { .. } => Some(FeedFault::Read),
        ScanFault::Memory => Some(FeedFault::Memory),
        _ => None,
    }
}
