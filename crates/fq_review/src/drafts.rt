//! A plan that files draft.
ghost use Rattle.std.specs.Prelude.{◌≡◌, ◌+◌, ◌∷◌, [], ◌++◌, ℕ, List, Some, IfOk, MatchOption, OnOk, false, length, map, min, reverse, string_bytes};
ghost use Rattle.std.specs.Cmp.Lexicographic.{pointwise};
ghost use Rattle.csv.specs.Reading.{default_config, records as records_of, strip_bom};
ghost use Rattle.csv.specs.Records.{fields_of};
ghost use Rattle.fq_column.specs.Frame.{same_name};
ghost use Rattle.fq_csv.specs.File.{Record};
ghost use Rattle.fq_csv.specs.Readers.{HasLeft, IsPlain};
ghost use Rattle.fq_places.specs.Marks.{HasMarks, IsSound, marks_of};
ghost use Rattle.fq_places.specs.declared.marks.Mark.{Mark as MarkValue};
ghost use Rattle.fq_review.specs.Checked.{names_in};
ghost use Rattle.fq_review.specs.Drafted.{AreSourcesOf, HasTaken};
ghost use Rattle.fq_review.specs.declared.drafts.Reading.{Reading as ReadingValue};
ghost use Rattle.fq_review.specs.declared.drafts.Source.{Source as SourceValue};

use crate::guesses::Guess;
use crate::headers::has_names;
use crate::notes::{CONVERSION, FileNote, Note, notes_of};
use crate::options::{NotationOption, NullOption};
use crate::problems::Wanted;
use csv::ByteRecord;
use fq_column::{Kind, MAX_COLUMNS, Memory, has_double};
use fq_csv::{NullValues, kind_word};
use fq_notation::NamedNotations;
use fq_places::{Flaw, LinedRecords, Mark, Quoted, Unread};
use serde_json::to_string;
use std::alloc::{AllocError, AllocFailed, Global};
use std::fmt::Write as _;
use std::io::{Read, Write};
use std::str;
use thiserror::Error;

/// Why files draft no plan.
///
/// Files count from 0, in the order in which they were read.
#[derive(Clone, Copy, Debug, PartialEq, Eq, Error)]
pub enum DraftFault {
    /// A file has no header.
    #[error("file {file}: no header")]
    NoHeader { file: u16 },
    /// A header has more than 64 names.
    #[error("file {file}: more than {MAX_COLUMNS} columns")]
    TooMany { file: u16 },
    /// A header has a name twice.
    #[error("file {file}: name twice")]
    DoubleName { file: u16 },
    /// A name of a header is not valid UTF-8.
    #[error("file {file}: name not valid UTF-8")]
    BadName { file: u16 },
    /// A file cannot be read, or changes while it is.
    #[error("read failed: file {file}")]
    Read { file: u16 },
    /// An allocation failed.
    #[error("out of memory")]
    Memory,
}

impl From<Memory> for DraftFault {
    fn from(_refused: Memory) -> DraftFault {
        DraftFault::Memory
    }
}

impl From<AllocError> for DraftFault {
    fn from(_error: AllocError) -> DraftFault {
        DraftFault::Memory
    }
}

impl<T: Drop> From<AllocFailed<T>> for DraftFault {
    fn from(_failed: AllocFailed<T>) -> DraftFault {
        DraftFault::Memory
    }
}

/// A plan that files draft: a source for each run of files with one header, whose columns have the kinds that their fields allow, and no
/// steps.
#[derive(Drop)]
pub struct Draft {
    alloc: Global,
    reading: Reading,
    files: u16,
    sources: Vec<Source>,
    notes: Vec<FileNote>,
}

// How the fields of files are read: which texts are null, and in which notations ints are, by the names of their columns.
#[derive(Drop)]
struct Reading {
    nulls: NullValues,
    named: NamedNotations,
}

// Files with one header.
#[derive(Drop)]
struct Source {
    // the number of the first file
    first: u16,
    files: u16,
    columns: Vec<(String, Guess)>,
    // how many rows were of another width, and the file and the line of the first
    left_out: Option<(u64, (u16, u64))>,
}

impl Source {
    // Whether another has columns of the same names.
    fn is_like(&self, other: &Source) -> bool {
        let (ours, theirs) = (self.columns.as_slice(), other.columns.as_slice());
        ours.len() == theirs.len() && ours.iter().zip(theirs.iter()).all(|(a, b)| a.0 == b.0)
    }

    // Takes a row on a line of a file.
    fn take_row(
        &mut self,
        alloc: Global,
        reading: &Reading,
        place: (u16, u64),
        row: &ByteRecord,
    ) -> Result<(), Memory>
        ensures files { self.new.files ≡ self.old.files }
        ensures names { OnOk result (names_in self.new.columns.items ≡ names_in self.old.columns.items) }
        ensures taken { OnOk result ((rows : List Record) → HasTaken reading.now self.old rows → HasTaken reading.now self.new (fields_of row.now ∷ rows)) }
    {
        if row.len() != self.columns.len() {
            let (rows, first) = self.left_out.unwrap_or((0, place));
            self.left_out = Some((rows.saturating_add(1), first));
            return Ok(());
        }
        for at in 0..self.columns.len() {
            let Some(field) = row.get(at) else {
                unreachable!()
            };
            self.columns[at].1.add(alloc, field, &reading.nulls, place)?;
        }
        Ok(())
    }
}

impl Draft {
    /// A draft of no file, in which these texts are null and ints are in these notations.
    pub fn new(alloc: Global, nulls: NullValues, named: NamedNotations) -> Draft
        ensures nulls { result.reading.nulls ≡ nulls }
        ensures named { result.reading.named ≡ named }
        ensures files { result.files ≡ 0 }
        ensures sources { AreSourcesOf result.reading result.sources.items [] }
    {
        Draft {
            alloc,
            reading: Reading { nulls, named },
            files: 0,
            sources: Vec::new(alloc),
            notes: Vec::new(alloc),
        }
    }

    /// The notations of ints, by the names of their columns.
    pub fn notations(&self) -> &NamedNotations
        ensures { result.now ≡ self.now.reading.named }
    {
        &self.reading.named
    }

    /// How many files were read, at most 65,535.
    pub fn files(&self) -> u16
        ensures { result ≡ self.now.files }
    {
        self.files
    }

    /// How many sources there are.
    pub fn sources(&self) -> usize
        ensures { result ≡ length self.now.sources.items }
    {
        self.sources.len()
    }

    /// Reads the next file, of which both of these are readers. A row of another width than the header is left out. With a fault, what the
    /// last source held may be gone.
    pub fn read_file<A: Read + Drop, B: Read + Drop>(
        &mut self,
        records: A,
        marks: B,
    ) -> Result<(), DraftFault>
        ensures reading { self.new.reading ≡ self.old.reading }
        ensures files { self.new.files ≡ min (self.old.files + 1) 65535 }
        ensures sources { OnOk result ((bytes : List ℕ) → A.remaining records ≡ Some bytes → B.remaining marks ≡ Some bytes → (files : List (List Record)) → AreSourcesOf self.old.reading self.old.sources.items files →
            AreSourcesOf self.old.reading self.new.sources.items (files ++ records_of default_config (strip_bom bytes) ∷ [])) }
    {
        let file = self.files;
        self.files = file.saturating_add(1);
        let source = self.read_source(file, records, marks)?;
        self.sources.push(source)?;
        Ok(())
    }

    // Reads a file of this number, and gives its source.
    fn read_source<A: Read + Drop, B: Read + Drop>(
        &mut self,
        file: u16,
        records: A,
        marks: B,
    ) -> Result<Source, DraftFault>
        ensures reading { self.new.reading ≡ self.old.reading }
        ensures files { self.new.files ≡ self.old.files }
        ensures sources { IfOk result (λ source. (bytes : List ℕ) → A.remaining records ≡ Some bytes → B.remaining marks ≡ Some bytes → (files : List (List Record)) → AreSourcesOf self.old.reading self.old.sources.items files →
            AreSourcesOf self.old.reading (self.new.sources.items ++ source ∷ []) (files ++ records_of default_config (strip_bom bytes) ∷ [])) }
    {
        let mut records = match LinedRecords::new(self.alloc, records, marks) {
            Ok(records) => records,
            Err(cause) => return Err(fault_of(file, cause)),
        };
        let Some(line) = next_line(file, &mut records)? else {
            return Err(DraftFault::NoHeader { file });
        };
        self.note_header(file, line, &records.row)?;
        let mut source = self.take_source(file, &records.row)?;
        self.take_rows(file, &mut source, &mut records)?;
        self.note_flaws(file, records.flaws.as_slice())?;
        Ok(source)
    }

    // Keeps what is to be said of a file with this header.
    fn note_header(&mut self, file: u16, line: u64, header: &ByteRecord) -> Result<(), Memory>
        ensures reading { self.new.reading ≡ self.old.reading }
        ensures files { self.new.files ≡ self.old.files }
        ensures sources { self.new.sources ≡ self.old.sources }
    {
        let (alloc, notes) = (self.alloc, &mut self.notes);
        keep_notes(alloc, notes, file, line, header)
    }

    // Keeps what is to be said of the flaws that show where a file ends.
    fn note_flaws(&mut self, file: u16, flaws: &[Mark]) -> Result<(), Memory>
        ensures reading { self.new.reading ≡ self.old.reading }
        ensures files { self.new.files ≡ self.old.files }
        ensures sources { self.new.sources ≡ self.old.sources }
    {
        keep_open_quotes(&mut self.notes, file, flaws)
    }

    // Takes the rows that are left of a file of this number.
    fn take_rows<A: Read + Drop, B: Read + Drop>(
        &self,
        file: u16,
        source: &mut Source,
        records: &mut LinedRecords<A, B>,
    ) -> Result<(), DraftFault>
        requires plain { IsPlain records.old.records }
        requires sound { IsSound records.old.marks }
        ensures files { source.new.files ≡ source.old.files }
        ensures names { OnOk result (names_in source.new.columns.items ≡ names_in source.old.columns.items) }
        ensures taken { OnOk result ((rs : List Record) (marks : List MarkValue) → HasLeft A.remaining records.old.records rs → HasMarks B.remaining records.old.marks marks →
            (rows : List Record) → HasTaken self.now.reading source.old rows → HasTaken self.now.reading source.new (reverse rs ++ rows)) }
    {
        for _ in 0..u64::MAX {
            let Some(line) = next_line(file, records)? else {
                return Ok(());
            };
            source.take_row(self.alloc, &self.reading, (file, line), &records.row)?;
        }
        // never reached: no run lives through so many rounds
        Err(DraftFault::Read { file })
    }

    // The source of a file with this header: the last, with one file more, if it has the same names, and else another.
    fn take_source(&mut self, file: u16, header: &ByteRecord) -> Result<Source, DraftFault>
        ensures reading { self.new.reading ≡ self.old.reading }
        ensures files { self.new.files ≡ self.old.files }
        ensures sources { IfOk result (λ source. (files : List (List Record)) → AreSourcesOf self.old.reading self.old.sources.items files →
            AreSourcesOf self.old.reading (self.new.sources.items ++ source ∷ []) (files ++ (fields_of header.now ∷ []) ∷ [])) }
    {
        if self.goes_on(header) {
            let Some(mut source) = self.sources.pop() else {
                unreachable!()
            };
            source.files = source.files.saturating_add(1);
            return Ok(source);
        }
        new_source(self.alloc, &self.reading.named, file, header)
    }

    // Whether a file with this header is one more of the last source.
    fn goes_on(&self, header: &ByteRecord) -> bool
        ensures none { self.now.sources.items ≡ [] → result ≡ false }
        ensures last { (sources : List SourceValue) (last : SourceValue) → self.now.sources.items ≡ sources ++ last ∷ [] →
            result ≡ pointwise same_name (names_in last.columns.items) (fields_of header.now) }
    {
        match self.sources.last() {
            Some(last) => has_names(header, last.columns.as_slice()),
            None => false,
        }
    }

    /// The plan, in JSON.
    pub fn plan(&self) -> Result<String, Memory> {
        let mut text = String::new(self.alloc);
        text.push_str("{\n  \"version\": 2,\n  \"sources\": [")?;
        for (place, source) in self.sources.iter().enumerate() {
            let comma = if place == 0 { "" } else { "," };
            let files = source.files;
            write!(text, "{comma}\n    {{\n      \"files\": {files},\n").map_err(|_| Memory)?;
            self.write_columns(source, &mut text)?;
            self.write_nulls(&mut text)?;
            text.push_str("\n    }")?;
        }
        text.push_str("\n  ],\n  \"steps\": []\n}\n")?;
        Ok(text)
    }

    // Writes the columns of a source.
    fn write_columns(&self, source: &Source, text: &mut String) -> Result<(), Memory> {
        text.push_str("      \"columns\": [")?;
        for (place, column) in source.columns.iter().enumerate() {
            let comma = if place == 0 { "" } else { "," };
            let name = quoted(self.alloc, &column.0)?;
            let kind = kind_word(column.1.kind());
            write!(text, "{comma}\n        [{name}, \"{kind}\"]").map_err(|_| Memory)?;
        }
        text.push_str("\n      ]")?;
        Ok(())
    }

    // Writes the texts that are null, if there are any.
    fn write_nulls(&self, text: &mut String) -> Result<(), Memory> {
        let nulls = self.reading.nulls.texts();
        if nulls.is_empty() {
            return Ok(());
        }
        text.push_str(",\n      \"null_values\": [")?;
        for (place, null) in nulls.iter().enumerate() {
            let comma = if place == 0 { "" } else { ", " };
            let null = quoted(self.alloc, null)?;
            write!(text, "{comma}{null}").map_err(|_| Memory)?;
        }
        text.push_str("]")?;
        Ok(())
    }

    /// Writes what a reader of the plan may want to know: what is said of each file, and then of each source: each column that is a text
    /// and nearly something else, the first field that is not valid UTF-8, the first row of another width and how many others are left
    /// out, and which earlier source has the same header. A failed write changes nothing.
    pub fn write_notes<E: Write>(&self, names: &[&str], err: &mut E) {
        self.write_file_notes(names, err);
        for (number, source) in self.sources.iter().enumerate() {
            let _ = self.write_guesses(source, names, err);
            let _ = write_unreadable(source, names, err);
            let _ = write_left_out(source, names, err);
            let others = self.sources.iter().take(number);
            if let Some(other) = others.rev().find(|other| other.is_like(source)) {
                let _ = write_likeness(source, other, names, err);
            }
        }
    }

    /// Writes what is said of each file, and what there is to say also if a file is refused. A failed write changes nothing.
    pub fn write_file_notes<E: Write>(&self, names: &[&str], err: &mut E) {
        for it in &self.notes {
            if let Some(name) = names.get(usize::from(it.file)) {
                let _ = writeln!(err, "{name}:{}: {}", it.line, it.note);
            }
        }
    }

    // Writes each column of a source that is a text and nearly something else, or for which a notation is named that it has not.
    fn write_guesses<E: Write>(&self, source: &Source, names: &[&str], err: &mut E) -> Option<()> {
        for column in &source.columns {
            let is_notable = column.1.is_notable();
            if is_notable || column.1.misses_its_notation() {
                write!(err, "{} is text: ", Quoted(column.0.as_bytes())).ok()?;
                column.1.write(names, err)?;
                if is_notable {
                    self.write_null_option(&column.1, err)?;
                    write_notation_option(column.0.as_str(), &column.1, err)?;
                }
                writeln!(err, "").ok()?;
            }
        }
        Some(())
    }

    // Writes which option makes null what alone is not as the other fields of a column are.
    fn write_null_option<E: Write>(&self, column: &Guess, err: &mut E) -> Option<()> {
        let Some((text, wanted)) = column.null_text() else {
            return Some(());
        };
        let Some(option) = NullOption::of(&self.reading.nulls, text) else {
            return Some(());
        };
        match wanted {
            Wanted::Text => write!(err, "; {option} makes these null").ok(),
            _ => write!(err, "; {option} makes it {wanted}").ok(),
        }
    }
}

// Writes which option reads the decimals or the dates of a column as ints.
fn write_notation_option<E: Write>(name: &str, column: &Guess, err: &mut E) -> Option<()> {
    let Some((notation, which)) = column.better_notation() else {
        return Some(());
    };
    match NotationOption::of(name, notation) {
        Some(option) => write!(err, "; {option} reads {which} as ints").ok(),
        None => Some(()),
    }
}

// Adds to notes on which line of a file a quote opens that is not closed, if that is one of these flaws.
fn keep_open_quotes(notes: &mut Vec<FileNote>, file: u16, flaws: &[Mark]) -> Result<(), Memory> {
    for mark in flaws {
        if mark.flaw == Some(Flaw::OpenQuote) {
            let (line, note) = (mark.line, Note::OpenQuote);
            notes.push(FileNote { file, line, note })?;
        }
    }
    Ok(())
}

// Adds to notes what is to be said of a file with this header.
fn keep_notes(
    alloc: Global,
    notes: &mut Vec<FileNote>,
    file: u16,
    line: u64,
    header: &ByteRecord,
) -> Result<(), Memory> {
    for note in notes_of(alloc, header)? {
        notes.push(FileNote { file, line, note })?;
    }
    Ok(())
}

// Writes which field of a source is the first that is not valid UTF-8, and how many others are not.
fn write_unreadable<E: Write>(source: &Source, names: &[&str], err: &mut E) -> Option<()> {
    let (mut fields, mut first) = (0u64, None);
    for column in &source.columns {
        if let Some(seen) = column.1.unreadable() {
            fields = fields.saturating_add(seen.count);
            first = Some(first.map_or(seen.first, |before: (u16, u64)| before.min(seen.first)));
        }
    }
    let (file, line) = first?;
    let name = names.get(usize::from(file))?;
    write!(err, "{name}:{line}: a field is not valid UTF-8").ok()?;
    if fields > 1 {
        write!(err, ", and {} more", fields.saturating_sub(1)).ok()?;
    }
    writeln!(err, ": {CONVERSION}").ok()
}

// Writes which row of a source is left out first, how many others are, and whether none is left that says anything of a column.
fn write_left_out<E: Write>(source: &Source, names: &[&str], err: &mut E) -> Option<()> {
    let (rows, (file, line)) = source.left_out?;
    let name = names.get(usize::from(file))?;
    write!(err, "{name}:{line}: a row of another width is left out").ok()?;
    if rows > 1 {
        write!(err, ", and {} more", rows.saturating_sub(1)).ok()?;
    }
    if source.columns.iter().all(|column| column.1.is_empty()) {
        err.write_all(b": no field is left").ok()?;
    }
    writeln!(err, "").ok()
}

// Writes that two sources have one header.
fn write_likeness<E: Write>(
    source: &Source,
    other: &Source,
    names: &[&str],
    err: &mut E,
) -> Option<()> {
    let name = names.get(usize::from(source.first))?;
    let like = names.get(usize::from(other.first))?;
    writeln!(
        err,
        "{name} has the header of {like}: named one after the other, they are one source"
    )
    .ok()
}

// Reads the next record of a file, and gives its line, or nothing after the last.
fn next_line<A: Read + Drop, B: Read + Drop>(
    file: u16,
    records: &mut LinedRecords<A, B>,
) -> Result<Option<u64>, DraftFault>
    requires plain { IsPlain records.old.records }
    requires sound { IsSound records.old.marks }
    ensures plain { OnOk result (IsPlain records.new.records) }
    ensures sound { OnOk result (IsSound records.new.marks) }
    ensures reads { IfOk result (λ line. (rs : List Record) (marks : List MarkValue) → HasLeft A.remaining records.old.records rs → HasMarks B.remaining records.old.marks marks →
        (rest : List MarkValue) × HasMarks B.remaining records.new.marks rest
        × MatchOption line (rs ≡ []) (λ _. (r : List Record) × (rs ≡ fields_of records.new.row ∷ r) × HasLeft A.remaining records.new.records r)) }
{
    match records.next() {
        Ok(line) => Ok(line),
        Err(cause) => Err(fault_of(file, cause)),
    }
}

// A text as JSON has it.
fn quoted(alloc: Global, text: &String) -> Result<String, Memory> {
    to_string(alloc, text).map_err(|_| Memory)
}

// A source of one file with this header, of which no row is read.
fn new_source(
    alloc: Global,
    named: &NamedNotations,
    file: u16,
    header: &ByteRecord,
) -> Result<Source, DraftFault>
    ensures files { IfOk result (λ source. source.files ≡ 1) }
    ensures names { IfOk result (λ source. names_in source.columns.items ≡ fields_of header.now) }
    ensures taken { IfOk result (λ source. (reading : ReadingValue) → reading.named ≡ named.now → HasTaken reading source []) }
{
    let names = names_of(alloc, file, header)?;
    let mut columns = Vec::with_capacity(alloc, names.len())?;
    for name in names {
        let notation = named.of(name.as_str(), Kind::Whole);
        columns.push((name, Guess::new(alloc, notation)))?;
    }
    Ok(Source {
        first: file,
        files: 1,
        columns,
        left_out: None,
    })
}

// The names of a header.
fn names_of(alloc: Global, file: u16, header: &ByteRecord) -> Result<Vec<String>, DraftFault>
    ensures { IfOk result (λ names. map string_bytes names.items ≡ fields_of header.now) }
{
    if header.len() > MAX_COLUMNS {
        return Err(DraftFault::TooMany { file });
    }
    let mut names = Vec::with_capacity(alloc, header.len())?;
    for at in 0..header.len() {
        let Some(field) = header.get(at) else {
            unreachable!()
        };
        let Ok(name) = str::from_utf8(field) else {
            return Err(DraftFault::BadName { file });
        };
        names.push(String::from_str(alloc, name)?)?;
    }
    if has_double(names.as_slice()) {
        return Err(DraftFault::DoubleName { file });
    }
    Ok(names)
}

// The fault of a file that is not read.
fn fault_of(file: u16, cause: Unread) -> DraftFault {
    match cause {
        Unread::Memory => DraftFault::Memory,
        _ => DraftFault::Read { file },
    }
}
