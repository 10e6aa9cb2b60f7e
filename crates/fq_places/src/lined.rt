//! The records of a file with their lines.
ghost use Rattle.std.specs.Prelude.{◌≡◌, ◌∷◌, [], ◌++◌, ℕ, List, Some, IfOk, MatchOption, OnOk};
ghost use Rattle.csv.specs.Reading.{default_config, records as records_of, strip_bom};
ghost use Rattle.csv.specs.Records.{fields_of};
ghost use Rattle.fq_csv.specs.File.{Record};
ghost use Rattle.fq_csv.specs.Readers.{HasLeft, IsPlain};
ghost use Rattle.fq_places.specs.Marks.{HasMarks, IsSound, marks_of};
ghost use Rattle.fq_places.specs.Records.{flaws_of, lines_of};
ghost use Rattle.fq_places.specs.declared.marks.Mark.{Mark as MarkValue};

use crate::marks::{Mark, Marks};
use crate::unread::Unread;
use csv::ByteRecord;
use fq_csv::RecordReader;
use std::alloc::Global;
use std::io::Read;

/// A reader of the records of a file, of the lines on which they begin, and of the file's flaws. It reads the file twice, side by side.
#[derive(Drop)]
pub struct LinedRecords<A, B> {
    records: RecordReader<A>,
    marks: Marks<B>,
    /// The fields of the record that was read last.
    pub row: ByteRecord,
    /// The flaws that show in the record before it, and up to its first byte.
    pub flaws: Vec<Mark>,
}

impl<A: Read + Drop, B: Read + Drop> LinedRecords<A, B> {
    /// A reader of the records of a file, of which both of these are readers. Fails as [`Marks::new`] does.
    pub fn new(alloc: Global, records: A, marks: B) -> Result<LinedRecords<A, B>, Unread>
        ensures plain { IfOk result (λ r. IsPlain r.records) }
        ensures sound { IfOk result (λ r. IsSound r.marks) }
        ensures records { IfOk result (λ r. (bytes : List ℕ) → A.remaining records ≡ Some bytes → HasLeft A.remaining r.records (records_of default_config (strip_bom bytes))) }
        ensures marks { IfOk result (λ r. (bytes : List ℕ) → B.remaining marks ≡ Some bytes → HasMarks B.remaining r.marks (marks_of bytes)) }
    {
        Ok(LinedRecords {
            records: RecordReader::new(alloc, records),
            marks: Marks::new(alloc, marks)?,
            row: ByteRecord::new(alloc),
            flaws: Vec::new(alloc),
        })
    }

    /// Reads the next record, and gives its line, or `None` after the last. `Changed` if the two readers have not as many records. With each
    /// record, and after the last, come the flaws that were not given before.
    pub fn next(&mut self) -> Result<Option<u64>, Unread>
        requires plain { IsPlain self.old.records }
        requires sound { IsSound self.old.marks }
        ensures plain { OnOk result (IsPlain self.new.records) }
        ensures sound { IsSound self.new.marks }
        ensures reads { IfOk result (λ line. (rs : List Record) (marks : List MarkValue) → HasLeft A.remaining self.old.records rs → HasMarks B.remaining self.old.marks marks →
            (rest : List MarkValue) × HasMarks B.remaining self.new.marks rest × (flaws_of marks ≡ self.new.flaws.items ++ flaws_of rest)
            × MatchOption line ((rs ≡ []) × (lines_of marks ≡ []) × (rest ≡ [])) (λ l. (r : List Record) × (rs ≡ fields_of self.new.row ∷ r)
            × HasLeft A.remaining self.new.records r × (lines_of marks ≡ l ∷ lines_of rest))) }
    {
        self.flaws.clear();
        let found = self.records.read(&mut self.row)?;
        match (found, self.marks.next_record(&mut self.flaws)?) {
            (true, Some(line)) => Ok(Some(line)),
            (false, None) => Ok(None),
            _ => Err(Unread::Changed),
        }
    }
}
