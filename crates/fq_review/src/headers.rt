//! Headers, against the names of columns.
ghost use Rattle.std.specs.Prelude.{◌≡◌};
ghost use Rattle.std.specs.Cmp.Lexicographic.{pointwise};
ghost use Rattle.csv.specs.Records.{fields_of};
ghost use Rattle.fq_column.specs.Frame.{same_name};
ghost use Rattle.fq_review.specs.Checked.{names_in};

use csv::ByteRecord;
use fq_column::Kind;
use fq_places::Quoted;
use std::fmt;
use std::fmt::{Display, Formatter, Write};

/// Whether the fields of a header are the names of columns, in their order.
pub fn has_names<T>(header: &ByteRecord, columns: &[(String, T)]) -> bool
    ensures { result ≡ pointwise same_name (names_in columns.now) (fields_of header.now) }
{
    if header.len() != columns.len() {
        return false;
    }
    for place in 0..columns.len() {
        let Some(field) = header.get(place) else {
            unreachable!()
        };
        if field != columns[place].0.as_bytes() {
            return false;
        }
    }
    true
}

/// A byte that most likely stands between the fields of a file, in place of the comma. Its text asks for it.
#[derive(Clone, Copy)]
pub struct Separator(u8);

impl Separator {
    /// That of a file whose header has one field: the semicolon, tab or bar that is there most often.
    pub fn of(header: &ByteRecord) -> Option<Separator> {
        if header.len() != 1 {
            return None;
        }
        let field = header.get(0)?;
        let mut most = None;
        for separator in *b";\t|" {
            let count = field.iter().filter(|byte| **byte == separator).count();
            if count > most.map_or(0, |(_, before)| before) {
                most = Some((separator, count));
            }
        }
        most.map(|(separator, _)| Separator(separator))
    }
}

impl Display for Separator {
    fn fmt<W: Write>(&self, f: &mut Formatter<W>) -> fmt::Result {
        let separator = [self.0];
        write!(
            f,
            "is the separator {}? frameq reads commas",
            Quoted(&separator)
        )
    }
}

/// A header that has not the names of these columns. Its text says where it differs.
#[derive(Clone, Copy)]
pub struct Header<'a> {
    /// The header of the file.
    pub header: &'a ByteRecord,
    /// The names that it has to have, in this order, and their kinds.
    pub columns: &'a [(String, Kind)],
}

impl Display for Header<'_> {
    fn fmt<W: Write>(&self, f: &mut Formatter<W>) -> fmt::Result {
        for (place, column) in self.columns.iter().enumerate() {
            let name = Quoted(column.0.as_bytes());
            match self.header.get(place) {
                None => return write!(f, "column {place} is missing, the plan has {name}"),
                Some(field) if field != column.0.as_bytes() => {
                    return write!(
                        f,
                        "column {place} is {}, the plan has {name}",
                        Quoted(field)
                    );
                }
                Some(_) => {}
            }
        }
        let (fields, columns) = (self.header.len(), self.columns.len());
        write!(f, "it has {fields} columns, the plan has {columns}")
    }
}
