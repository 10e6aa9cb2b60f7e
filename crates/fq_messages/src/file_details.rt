//! What more can be said of a fault of a file: the line, and what stands there.
ghost use Rattle.std.specs.Prelude.{◌≡◌};

use csv::ByteRecord;
use fq_column::Kind;
use fq_csv::MAX_ROWS;
use fq_language::Plan;
use fq_notation::NamedNotations;
use fq_places::{Quoted, Unread, ends_in_quotes, line_of_record, record_at};
use fq_review::{BadField, CONVERSION, Header, Separator, Wanted, Width, has_names};
use fq_shell::Opener;
use std::alloc::Global;
use std::fmt;
use std::fmt::{Display, Formatter};
use std::io::Write;

/// A file that faults, and its columns.
#[derive(Clone, Copy)]
pub struct FileDetails<'a> {
    name: &'a str,
    plan: &'a Plan,
    columns: &'a [(String, Kind)],
    named: &'a NamedNotations,
}

impl<'a> FileDetails<'a> {
    /// The file of this number among those of a plan, which have these names; the ints of its columns are in these notations.
    pub fn of(
        plan: &'a Plan,
        named: &'a NamedNotations,
        names: &[&'a str],
        file: u16,
    ) -> Option<FileDetails<'a>> {
        let name: &'a str = names.get(usize::from(file))?;
        let columns = plan.source_of(file)?.columns();
        Some(FileDetails {
            name,
            plan,
            columns,
            named,
        })
    }

    /// Writes where the header differs from the plan's names, and what it is instead.
    pub fn write_header<O: Opener, E: Write>(
        self,
        alloc: Global,
        files: &mut O,
        err: &mut E,
    ) -> Option<()>
        ensures { O.bytes_of files.new ≡ O.bytes_of files.old }
    {
        let (name, columns) = (self.name, self.columns);
        match Found::of(alloc, files, name, 0) {
            Ok(Some(found)) => {
                let header = &found.record;
                let differs = Header { header, columns };
                write!(err, "  {name}:{}: {differs}", found.line).ok()?;
                self.write_guess(header, err)?;
                writeln!(err, "").ok()
            }
            Ok(None) => writeln!(err, "  {name}: it has no header").ok(),
            Err(cause) => writeln!(err, "  {name}: the plan has {}; {cause}", Names(columns)).ok(),
        }
    }

    // Writes what another header is: that of another source, or one with another separator.
    fn write_guess<E: Write>(self, header: &ByteRecord, err: &mut E) -> Option<()> {
        for (number, source) in self.plan.sources().iter().enumerate() {
            if has_names(header, source.columns()) {
                return write!(err, "; source {number} has these columns").ok();
            }
        }
        match Separator::of(header) {
            Some(separator) => write!(err, "; {separator}").ok(),
            None => Some(()),
        }
    }

    /// Writes how many fields a row has.
    pub fn write_width<O: Opener, E: Write>(
        self,
        alloc: Global,
        row: u32,
        files: &mut O,
        err: &mut E,
    ) -> Option<()>
        ensures { O.bytes_of files.new ≡ O.bytes_of files.old }
    {
        let (name, width) = (self.name, self.columns.len());
        match Found::of(alloc, files, name, row) {
            Ok(Some(found)) => {
                let (line, note) = (found.line, found.note());
                let width = Width {
                    fields: found.record.len(),
                    columns: width,
                };
                writeln!(err, "  {name}:{line}: {width}{note}").ok()
            }
            Ok(None) => writeln!(err, "  {name}: it has no such row now").ok(),
            Err(cause) => writeln!(err, "  {name}: the header has {width}; {cause}").ok(),
        }
    }

    /// Writes the field that is not a cell of its column.
    pub fn write_cell<O: Opener, E: Write>(
        self,
        alloc: Global,
        row: u32,
        column: u16,
        files: &mut O,
        err: &mut E,
    ) -> Option<()>
        ensures { O.bytes_of files.new ≡ O.bytes_of files.old }
    {
        let name = self.name;
        let (title, kind) = self.columns.get(usize::from(column))?;
        let (title, kind) = (title.as_str(), *kind);
        let notation = self.named.of(title, kind);
        match Found::of(alloc, files, name, row) {
            Ok(Some(found)) => {
                let (line, note) = (found.line, found.note());
                let field = found.record.get(usize::from(column))?;
                let bad = BadField::of(title, kind, notation, field);
                write!(err, "  {name}:{line}: {bad}{note}").ok()?;
                if kind == Kind::Text {
                    write!(err, "; {CONVERSION}").ok()?;
                }
                writeln!(err, "").ok()
            }
            Ok(None) => writeln!(err, "  {name}: it has no such row now").ok(),
            Err(cause) => {
                let (title, wanted) = (Quoted(title.as_bytes()), Wanted::of(kind, notation));
                writeln!(err, "  {name}: column {title} is {wanted}; {cause}").ok()
            }
        }
    }

    /// Writes how many rows a file may have.
    pub fn write_length<E: Write>(self, err: &mut E) -> Option<()> {
        writeln!(err, "  {}: over {MAX_ROWS} rows", self.name).ok()
    }
}

// A record of a file.
#[derive(Drop)]
struct Found {
    record: ByteRecord,
    // the line on which it begins
    line: u64,
    // whether a quote in it is not closed
    is_open: bool,
}

impl Found {
    // The record of this number in the file of this name.
    fn of<O: Opener>(
        alloc: Global,
        files: &mut O,
        name: &str,
        number: u32,
    ) -> Result<Option<Found>, Unread>
        ensures { O.bytes_of files.new ≡ O.bytes_of files.old }
    {
        let number = u64::from(number);
        let Some(record) = record_at(alloc, files.reader_again(name)?, number)? else {
            return Ok(None);
        };
        let Some(line) = line_of_record(alloc, files.reader_again(name)?, number)? else {
            return Ok(None);
        };
        let is_open = line_of_record(alloc, files.reader_again(name)?, number + 1)?.is_none()
            && ends_in_quotes(alloc, files.reader_again(name)?)?;
        Ok(Some(Found {
            record,
            line,
            is_open,
        }))
    }

    // What else is to be said of it.
    fn note(&self) -> &'static str {
        if self.is_open {
            "; a quote in this record is not closed"
        } else {
            ""
        }
    }
}

// Names of columns.
#[derive(Clone, Copy)]
struct Names<'a>(&'a [(String, Kind)]);

impl Display for Names<'_> {
    fn fmt<W: fmt::Write>(&self, f: &mut Formatter<W>) -> fmt::Result {
        for (place, column) in self.0.iter().enumerate() {
            let comma = if place == 0 { "" } else { ", " };
            write!(f, "{comma}{}", Quoted(column.0.as_bytes()))?;
        }
        Ok(())
    }
}
