//! Laws of the definitions, proved for all values.
ghost use Rattle.std.specs.Prelude.{◌≡◌, ◌+◌, ◌<◌, ◌∷◌, [], ℕ, List, Option, Some, length, take};
ghost use Rattle.fq_column.specs.Frame.{Fields};
ghost use Rattle.fq_column.specs.Masked.{masked_stream};
ghost use Rattle.fq_column.specs.Stream.{Stream};
ghost use Rattle.fq_csv.specs.Field.{cell_of};
ghost use Rattle.fq_csv.specs.File.{all_kept, file_stream, plain, stream_by};
ghost use Rattle.fq_csv.specs.HandedOut.{Follows, IsRun, answers, framed};
ghost use Rattle.fq_csv.specs.Scan.{Scanning};
ghost use Rattle.fq_csv.specs.Stage.{ended, without};
ghost use Rattle.fq_csv.specs.declared.faults.ScanFault.{ScanFault};
ghost use Rattle.fq_csv.specs.declared.cells.layouts.Layout.{Layout};
ghost use Rattle.fq_csv.specs.declared.scanning.scans.Scan.{Scan as Answer};
ghost use Rattle.fq_csv.specs.declared.scanning.scans.Scan.TheVariants.{Batch, End};

/// What a scanner hands out, call by call, is the pieces of its stream's rows with serials in order, and then their
/// number and the stream's end; if a read or an allocation fails, it is the first of these. If no text is read as null
/// and no column has a notation, each field is read by its column's kind alone. Which columns are kept changes no fault:
/// their stream is that of all columns, with null in the place of the cells that are not kept.
pub fn scan_laws()
    ensures plain { (file limit : ℕ) (fields : Fields) (bytes : List ℕ) → file_stream file (plain fields) limit bytes ≡ stream_by cell_of [] [] file fields limit bytes }
    ensures projection { (file limit : ℕ) (layout : Layout) (bytes : List ℕ)
        → file_stream file layout limit bytes ≡ masked_stream layout.projection (file_stream file (all_kept layout) limit bytes) }
    ensures next { (file size serial : ℕ) (fields : Fields) (u : Stream ScanFault) → 0 < size → 0 < length u.rows
        → answers file fields size serial u ≡ Batch file serial (framed fields (take size u.rows)) ∷ answers file fields size (serial + 1) (without size u) }
    ensures last { (file size serial : ℕ) (fields : Fields) (fault : Option ScanFault)
        → answers file fields size serial (ended fault) ≡ End file serial fault ∷ [] }
    ensures run { (old new : Scanning) (handed_out : List Answer) (u : Stream ScanFault) → 0 < old.batch_size → old.upcoming ≡ Some u → IsRun old handed_out new
        → Follows old.file (answers old.file old.layout.schema old.batch_size old.serial u) handed_out }
{}
