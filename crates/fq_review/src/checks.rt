//! A check of files by the columns of a plan.
ghost use Rattle.std.specs.Prelude.{◌≡◌, ◌==◌, ◌&&◌, ◌∷◌, [], ℕ, List, Some, false, length, IfOk, MatchOption, OnOk};
ghost use Rattle.std.specs.Cmp.Lexicographic.{pointwise};
ghost use Rattle.csv.specs.Reading.{default_config, records as records_of, strip_bom};
ghost use Rattle.csv.specs.Records.{fields_of};
ghost use Rattle.fq_column.specs.Frame.{same_name};
ghost use Rattle.fq_csv.specs.File.{Record};
ghost use Rattle.fq_csv.specs.Readers.{HasLeft, IsPlain};
ghost use Rattle.fq_places.specs.Marks.{HasMarks, IsSound, marks_of};
ghost use Rattle.fq_places.specs.declared.marks.Mark.{Mark as MarkValue};
ghost use Rattle.fq_review.specs.Checked.{are_rows, is_clean, is_flawless, is_row, layout_of, names_in};

use crate::headers::{Header, Separator, has_names};
use crate::numbers::Numbers;
use crate::problems::{BadField, Problem, Width};
use crate::tallies::Tally;
use csv::ByteRecord;
use fq_column::{Kind, Memory};
use fq_csv::{MAX_ROWS, NullValues, is_cell};
use fq_notation::Notations;
use fq_places::{LinedRecords, Mark, Quoted, Unread};
use std::alloc::Global;
use std::io::{Read, Write};

/// How many texts of a column a summary names.
const NAMED_TEXTS: usize = 3;

/// What a file is to be: the columns that its header names, the texts that are null in each of them, and how their ints are written.
#[derive(Clone, Copy)]
pub struct Expected<'a> {
    /// The names that the header has to have, and their kinds.
    pub columns: &'a [(String, Kind)],
    /// The texts that are null in each column.
    pub nulls: &'a NullValues,
    /// How the ints of each column are written.
    pub notations: &'a Notations,
}

/// A check of files. Each problem is a line, `FILE:LINE: ..`, up to a limit; all are counted.
#[derive(Drop)]
pub struct Check {
    alloc: Global,
    // how many lines may still be written
    left: u64,
    problems: u64,
    headers: u64,
    rows: u64,
    long: u64,
    flaws: u64,
    fields: Vec<ColumnFields>,
    // of each file, in the order in which they were read
    numbers: Vec<Numbers>,
}

// The bad fields of a column.
#[derive(Drop)]
struct ColumnFields {
    name: String,
    texts: Tally,
}

// A file that is checked.
#[derive(Clone, Copy)]
struct File<'a> {
    number: u16,
    name: &'a str,
    expected: Expected<'a>,
}

impl Check {
    /// A check that writes so many lines at most.
    pub fn new(alloc: Global, limit: u64) -> Check
        ensures { result.problems ≡ 0 }
    {
        Check {
            alloc,
            left: limit,
            problems: 0,
            headers: 0,
            rows: 0,
            long: 0,
            flaws: 0,
            fields: Vec::new(alloc),
            numbers: Vec::new(alloc),
        }
    }

    /// How many problems were found.
    pub fn problems(&self) -> u64
        ensures { result ≡ self.now.problems }
    {
        self.problems
    }

    /// Checks a file of this number and name, of which both of these are readers. Each problem is a line on `err`; a failed write changes
    /// nothing.
    ///
    /// A problem is a header that is not the columns' names, a row that has more or fewer fields than it, a field that is not a cell of
    /// its column (`is_cell`), a row past the most that a file may have, and a flaw. With a header of another width nothing after it is
    /// judged. No problem is counted exactly if the file is read without a fault in each run, and has no flaw. Fails as [`LinedRecords`]
    /// does, and if an allocation fails.
    pub fn read_file<A: Read + Drop, B: Read + Drop, E: Write>(
        &mut self,
        number: u16,
        name: &str,
        expected: Expected<'_>,
        records: A,
        marks: B,
        err: &mut E,
    ) -> Result<(), Unread>
        ensures judged { OnOk result ((bytes : List ℕ) → A.remaining records ≡ Some bytes → B.remaining marks ≡ Some bytes →
            (self.new.problems == 0) ≡ ((self.old.problems == 0) && is_clean number (layout_of expected.entry.columns.now expected.entry.nulls.now expected.entry.notations.now) bytes)) }
    {
        let file = File {
            number,
            name,
            expected,
        };
        self.begin_numbers(expected.columns)?;
        let mut records = LinedRecords::new(self.alloc, records, marks)?;
        self.judge_file(file, &mut records, err)
    }

    // Begins to count the numbers of a file with these columns.
    fn begin_numbers(&mut self, columns: &[(String, Kind)]) -> Result<(), Memory>
        ensures { self.new.problems ≡ self.old.problems }
    {
        let numbers = Numbers::of(self.alloc, columns)?;
        self.numbers.push(numbers)?;
        Ok(())
    }

    // Judges the records of a file.
    fn judge_file<A: Read + Drop, B: Read + Drop, E: Write>(
        &mut self,
        file: File<'_>,
        records: &mut LinedRecords<A, B>,
        err: &mut E,
    ) -> Result<(), Unread>
        requires plain { IsPlain records.old.records }
        requires sound { IsSound records.old.marks }
        ensures judged { OnOk result ((bytes : List ℕ) → HasLeft A.remaining records.old.records (records_of default_config (strip_bom bytes)) →
            HasMarks B.remaining records.old.marks (marks_of bytes) → (self.new.problems == 0)
            ≡ ((self.old.problems == 0) && is_clean file.entry.number (layout_of file.entry.expected.columns.now file.entry.expected.nulls.now file.entry.expected.notations.now) bytes)) }
    {
        let Some(line) = self.next_line(file, records, err)? else {
            self.tell(file, 1, Problem::NoHeader, err);
            return Ok(());
        };
        if self.judge_header(file, line, &records.row, err) {
            return self.judge_rows(file, records, err);
        }
        self.next_line(file, records, err)?;
        Ok(())
    }

    // Judges the records after the header of a file.
    fn judge_rows<A: Read + Drop, B: Read + Drop, E: Write>(
        &mut self,
        file: File<'_>,
        records: &mut LinedRecords<A, B>,
        err: &mut E,
    ) -> Result<(), Unread>
        requires plain { IsPlain records.old.records }
        requires sound { IsSound records.old.marks }
        ensures judged { OnOk result ((rs : List Record) (marks : List MarkValue) → HasLeft A.remaining records.old.records rs → HasMarks B.remaining records.old.marks marks →
            (self.new.problems == 0) ≡ ((self.old.problems == 0) && (are_rows (layout_of file.entry.expected.columns.now file.entry.expected.nulls.now file.entry.expected.notations.now) rs && is_flawless marks))) }
    {
        for _ in 0..MAX_ROWS {
            let Some(line) = self.next_line(file, records, err)? else {
                return Ok(());
            };
            self.judge_row(file, line, &records.row, err)?;
        }
        if let Some(line) = self.next_line(file, records, err)? {
            self.tell(file, line, Problem::TooLong, err);
        }
        Ok(())
    }

    // Reads the next record of a file, and gives its line, or nothing after the last. Tells the flaws that show up to there.
    fn next_line<A: Read + Drop, B: Read + Drop, E: Write>(
        &mut self,
        file: File<'_>,
        records: &mut LinedRecords<A, B>,
        err: &mut E,
    ) -> Result<Option<u64>, Unread>
        requires plain { IsPlain records.old.records }
        requires sound { IsSound records.old.marks }
        ensures plain { OnOk result (IsPlain records.new.records) }
        ensures sound { OnOk result (IsSound records.new.marks) }
        ensures told { OnOk result ((self.old.problems == 0) ≡ false → (self.new.problems == 0) ≡ false) }
        ensures reads { IfOk result (λ line. (rs : List Record) (marks : List MarkValue) → HasLeft A.remaining records.old.records rs → HasMarks B.remaining records.old.marks marks →
            (rest : List MarkValue) × HasMarks B.remaining records.new.marks rest
            × (((self.new.problems == 0) && is_flawless rest) ≡ ((self.old.problems == 0) && is_flawless marks))
            × MatchOption line ((rs ≡ []) × (rest ≡ [])) (λ _. (r : List Record) × (rs ≡ fields_of records.new.row ∷ r) × HasLeft A.remaining records.new.records r)) }
    {
        let line = records.next()?;
        self.tell_flaws(file, records.flaws.as_slice(), err);
        Ok(line)
    }

    // Tells flaws of a file.
    fn tell_flaws<E: Write>(&mut self, file: File<'_>, flaws: &[Mark], err: &mut E)
        ensures { (self.new.problems == 0) ≡ ((self.old.problems == 0) && is_flawless flaws.now) }
    {
        for mark in flaws {
            if let Some(flaw) = mark.flaw {
                self.tell(file, mark.line, Problem::Flaw(flaw), err);
            }
        }
    }

    // Judges the header of a file, and says whether its rows can be judged.
    fn judge_header<E: Write>(
        &mut self,
        file: File<'_>,
        line: u64,
        header: &ByteRecord,
        err: &mut E,
    ) -> bool
        ensures told { (self.new.problems == 0) ≡ ((self.old.problems == 0) && pointwise same_name (names_in file.entry.expected.columns.now) (fields_of header.now)) }
        ensures width { result ≡ (length (fields_of header.now) == length file.entry.expected.columns.now) }
    {
        let columns = file.expected.columns;
        if !has_names(header, columns) {
            let differing = Header { header, columns };
            self.tell(file, line, Problem::Header(differing), err);
        }
        if let Some(separator) = Separator::of(header) {
            let _ = writeln!(err, "{}:{line}: warning: {separator}", file.name);
        }
        header.len() == columns.len()
    }

    // Judges a row of a file, and counts its numbers.
    fn judge_row<E: Write>(
        &mut self,
        file: File<'_>,
        line: u64,
        row: &ByteRecord,
        err: &mut E,
    ) -> Result<(), Memory>
        ensures { OnOk result ((self.new.problems == 0) ≡ ((self.old.problems == 0)
            && is_row (layout_of file.entry.expected.columns.now file.entry.expected.nulls.now file.entry.expected.notations.now) (fields_of row.now))) }
    {
        self.judge_fields(file, line, row, err)?;
        if let Some(numbers) = self.numbers.last_mut() {
            numbers.take_row(row, file.expected.nulls);
        }
        Ok(())
    }

    // Judges the fields of a row of a file.
    fn judge_fields<'a, E: Write>(
        &mut self,
        file: File<'a>,
        line: u64,
        row: &'a ByteRecord,
        err: &mut E,
    ) -> Result<(), Memory>
        ensures { OnOk result ((self.new.problems == 0) ≡ ((self.old.problems == 0)
            && is_row (layout_of file.entry.expected.columns.now file.entry.expected.nulls.now file.entry.expected.notations.now) (fields_of row.now))) }
    {
        let Expected {
            columns,
            nulls,
            notations,
        } = file.expected;
        if row.len() != columns.len() {
            let width = Width {
                fields: row.len(),
                columns: columns.len(),
            };
            self.tell(file, line, Problem::Width(width), err);
            return Ok(());
        }
        for place in 0..columns.len() {
            let Some(field) = row.get(place) else {
                unreachable!()
            };
            let (column, kind) = (columns[place].0.as_str(), columns[place].1);
            if !is_cell(field, kind, notations.of(place), nulls) {
                let bad = BadField::of(column, kind, notations.of(place), field);
                self.tell(file, line, Problem::Field(bad), err);
                self.count(file, line, column, field)?;
            }
        }
        Ok(())
    }

    // Counts a problem, and writes its line.
    fn tell<E: Write>(&mut self, file: File<'_>, line: u64, problem: Problem<'_>, err: &mut E)
        ensures { (self.new.problems == 0) ≡ false }
    {
        self.problems = self.problems.saturating_add(1);
        match problem {
            Problem::NoHeader | Problem::Header(_) => self.headers = self.headers.saturating_add(1),
            Problem::Width(_) => self.rows = self.rows.saturating_add(1),
            Problem::TooLong => self.long = self.long.saturating_add(1),
            Problem::Flaw(_) => self.flaws = self.flaws.saturating_add(1),
            // (counted with their texts)
            Problem::Field(_) => {}
        }
        if self.left > 0 {
            self.left -= 1;
            let _ = writeln!(err, "{}:{line}: {problem}", file.name);
        }
    }

    // Counts a bad field of a column.
    fn count(&mut self, file: File<'_>, line: u64, column: &str, field: &[u8]) -> Result<(), Memory>
        ensures { self.new.problems ≡ self.old.problems }
    {
        let place = (file.number, line);
        for fields in &mut self.fields {
            if fields.name.as_str() == column {
                return fields.texts.add(self.alloc, field, place);
            }
        }
        let mut texts = Tally::new(self.alloc);
        texts.add(self.alloc, field, place)?;
        let name = String::from_str(self.alloc, column)?;
        self.fields.push(ColumnFields { name, texts })?;
        Ok(())
    }

    /// Whether a column of text has only numbers in so many files from this one on, counted in the order in which they were read: it has
    /// some, and each of its fields is one that is not null and not in a row of another width.
    pub fn has_only_numbers(&self, first: usize, files: usize, column: usize) -> bool {
        let mut total = 0u64;
        for numbers in self.numbers.iter().skip(first).take(files) {
            match numbers.count(column) {
                Some(count) => total = total.saturating_add(count),
                None => return false,
            }
        }
        total > 0
    }

    /// Writes how many problems of each sort there are, and the texts of the bad fields of each column. A failed write changes nothing.
    pub fn write_summary<E: Write>(&self, err: &mut E) {
        let _ = self.write_fields(err);
        let _ = write_count(
            self.rows,
            "row of another width",
            "rows of another width",
            err,
        );
        let _ = write_count(
            self.long,
            "file with too many rows",
            "files with too many rows",
            err,
        );
        let _ = write_count(
            self.headers,
            "header that differs",
            "headers that differ",
            err,
        );
        let _ = write_count(
            self.flaws,
            "flaw of quotes or line ends",
            "flaws of quotes or line ends",
            err,
        );
    }

    // Writes how many bad fields there are, and the texts of those of each column.
    fn write_fields<E: Write>(&self, err: &mut E) -> Option<()> {
        let mut total = 0u64;
        for column in &self.fields {
            total = total.saturating_add(column.texts.total());
        }
        if total == 0 {
            return None;
        }
        let word = if total == 1 { "field" } else { "fields" };
        write!(err, "{total} bad {word}.").ok()?;
        for (place, column) in self.fields.iter().enumerate() {
            let before = if place == 0 { "" } else { ";" };
            write!(err, "{before} {}:", Quoted(column.name.as_bytes())).ok()?;
            write_texts(&column.texts, err)?;
        }
        writeln!(err, "").ok()
    }
}

// Writes the texts that occur most often, and how many others there are.
fn write_texts<E: Write>(texts: &Tally, err: &mut E) -> Option<()> {
    let (mut last, mut others) = (None, texts.total());
    for place in 0..NAMED_TEXTS {
        last = texts.next_frequent(last);
        let Some((text, seen)) = last.and_then(|last| texts.text(last)) else {
            break;
        };
        if place > 0 && seen.count == 1 {
            break;
        }
        let comma = if place == 0 { "" } else { "," };
        write!(err, "{comma} {} {}", Quoted(text), seen.count).ok()?;
        others = others.saturating_sub(seen.count);
    }
    match others {
        0 => Some(()),
        1 => write!(err, ", 1 other").ok(),
        _ => write!(err, ", {others} others").ok(),
    }
}

// Writes how many there are of something, if there are any.
fn write_count<E: Write>(count: u64, one: &str, more: &str, err: &mut E) -> Option<()> {
    match count {
        0 => Some(()),
        1 => writeln!(err, "1 {one}").ok(),
        _ => writeln!(err, "{count} {more}").ok(),
    }
}
