//! What the fields of a column are.
ghost use Rattle.std.specs.Prelude.{◌≡◌, ◌+◌, ◌-◌, ◌^◌, ◌∷◌, [], ℕ, List, OnOk, Some, false, min};
ghost use Rattle.fq_review.specs.Drafted.{HasCounted, drafted_kind, is_int, is_printed, kind_alone, kind_of_nulls};
ghost use Rattle.fq_csv.specs.Field.{is_null};

use crate::problems::{Places, Wanted};
use crate::tallies::Seen;
use crate::texts::{Texts, width_of_whole};
use fq_column::{Kind, Memory};
use fq_csv::{NullValues, is_null, truth};
use fq_notation::{Notation, Scale, whole};
use fq_places::Quoted;
use itoa::Buffer;
use std::alloc::Global;
use std::fmt;
use std::fmt::{Display, Formatter};
use std::io::Write;

/// Of how many fields one may be a text in a column that is nearly of another kind.
const NEARLY: u64 = 10;

/// Whether a field is a whole number as one is printed: without a plus, and without zeros before its digits.
pub fn is_printed_int(field: &[u8]) -> bool
    ensures { result ≡ is_printed field.now }
{
    match whole(field) {
        Some(number) => Buffer::new().format(number).as_bytes() == field,
        None => false,
    }
}

// Whether a field is an int as a column in this notation has them; one in digits is an int only as it is printed.
fn is_int(notation: Notation, field: &[u8]) -> bool
    ensures { result ≡ is_int notation field.now }
{
    match notation {
        Notation::Plain => is_printed_int(field),
        Notation::Decimal(_) | Notation::Date => notation.int(field).is_some(),
    }
}

// The kind of a column in this notation with this field alone, which is not null.
fn kind_alone(notation: Notation, field: &[u8]) -> Kind
    ensures { (nulls : List (List ℕ)) → is_null nulls field.now ≡ false → kind_alone nulls notation field.now ≡ Some result }
{
    if is_int(notation, field) {
        Kind::Whole
    } else if truth(field).is_some() {
        Kind::Truth
    } else {
        Kind::Text
    }
}

// The kind of a column that is null throughout: a text, but of ints if a notation of ints was named for it.
fn kind_of_nulls(notation: Notation) -> Kind
    ensures { result ≡ kind_of_nulls notation }
{
    match notation {
        Notation::Plain => Kind::Text,
        Notation::Decimal(_) | Notation::Date => Kind::Whole,
    }
}

/// How many fields of a column are ints in a notation, bools and other texts; null ones do not count.
#[derive(Drop)]
pub struct Guess {
    notation: Notation,
    ints: u64,
    // the most bytes that an int has before its point
    width: u64,
    bools: u64,
    texts: Texts,
}

impl Guess {
    /// A column without fields, whose ints are in this notation.
    pub fn new(alloc: Global, notation: Notation) -> Guess
        ensures notation { result.notation ≡ notation }
        ensures counted { (nulls : List (List ℕ)) → HasCounted nulls result [] }
    {
        Guess {
            notation,
            ints: 0,
            width: 0,
            bools: 0,
            texts: Texts::new(alloc),
        }
    }

    /// Counts a field on a line of a file. `Memory` if an allocation fails.
    pub fn add(
        &mut self,
        alloc: Global,
        field: &[u8],
        nulls: &NullValues,
        place: (u16, u64),
    ) -> Result<(), Memory>
        ensures notation { OnOk result (self.new.notation ≡ self.old.notation) }
        ensures counted { OnOk result ((fields : List (List ℕ)) → HasCounted nulls.now self.old fields → HasCounted nulls.now self.new (field.now ∷ fields)) }
    {
        if is_null(field, nulls) {
            return Ok(());
        }
        match kind_alone(self.notation, field) {
            Kind::Whole => self.add_int(field),
            Kind::Truth => self.bools = self.bools.saturating_add(1),
            Kind::Text => self.texts.add(alloc, field, place)?,
        }
        Ok(())
    }

    // Counts an int.
    fn add_int(&mut self, field: &[u8])
        ensures { self.new ≡ record self.old { ints = min (self.old.ints + 1) (2 ^ 64 - 1); width = self.new.width } }
    {
        self.ints = self.ints.saturating_add(1);
        self.width = self.width.max(width_of_whole(field));
    }

    /// The kind of the column: `int` or `bool` if all fields are, and else `text`; if all are null, `text`, or `int` if it is in a notation.
    pub fn kind(&self) -> Kind
        ensures { (nulls fields : List (List ℕ)) → HasCounted nulls self.now fields → result ≡ drafted_kind nulls self.now.notation fields }
    {
        match (self.ints, self.bools, self.texts.total()) {
            (0, 0, 0) => kind_of_nulls(self.notation),
            (1.., 0, 0) => Kind::Whole,
            (0, 1.., 0) => Kind::Truth,
            _ => Kind::Text,
        }
    }

    /// The texts that are not valid UTF-8, if there are any.
    pub fn unreadable(&self) -> Option<Seen> {
        self.texts.unreadable()
    }

    /// Whether the column is a text whose fields are decimals, dates, or nearly all of one sort: numbers, bools or dates. Nearly all are
    /// nine tenths, or all but one text that occurs more than once.
    pub fn is_notable(&self) -> bool {
        let (most, others) = (self.most(), self.others());
        let is_text = matches!(self.kind(), Kind::Text);
        let are_few = others.saturating_mul(NEARLY) <= self.total();
        is_text && most > 0 && (are_few || self.lone_text().is_some())
    }

    /// Whether the column is a text though it is in a notation: a field of it is not written so.
    pub fn misses_its_notation(&self) -> bool {
        matches!(self.kind(), Kind::Text) && !matches!(self.notation, Notation::Plain)
    }

    /// Whether no field was counted.
    pub fn is_empty(&self) -> bool {
        self.total() == 0
    }

    // How many fields there are.
    fn total(&self) -> u64 {
        let texts = self.texts.total();
        self.ints.saturating_add(self.bools).saturating_add(texts)
    }

    // How many fields are of the sort that most are of: numbers, bools or dates.
    fn most(&self) -> u64 {
        self.numbers().max(self.bools).max(self.dates())
    }

    // How many fields are ints or decimals; the ints of a column of dates are none.
    fn numbers(&self) -> u64 {
        let decimals = count_of(self.texts.decimals());
        match self.notation {
            Notation::Date => decimals,
            _ => self.ints.saturating_add(decimals),
        }
    }

    // How many fields are dates, in whichever notation the column is.
    fn dates(&self) -> u64 {
        match self.notation {
            Notation::Date => self.ints,
            _ => count_of(self.texts.dates()),
        }
    }

    // How many fields are of no such sort.
    fn others(&self) -> u64 {
        self.total().saturating_sub(self.most())
    }

    // The text that all others are, if it occurs more than once.
    fn lone_text(&self) -> Option<&[u8]> {
        let (text, seen) = self.texts.others().text(0)?;
        (seen.count > 1 && seen.count == self.others()).then_some(text)
    }

    /// The text that all fields are but those of the sort that most are of, if it occurs more than once, and what the fields of the column
    /// have to be where it is null.
    pub fn null_text(&self) -> Option<(&[u8], Wanted)> {
        let text = self.lone_text()?;
        let forms = count_of(self.texts.decimals()).max(count_of(self.texts.dates()));
        let kind = match (self.ints, forms) {
            (_, 1..) => Kind::Text,
            (1.., _) => Kind::Whole,
            _ => Kind::Truth,
        };
        Some((text, Wanted::of(kind, self.notation)))
    }

    /// The notation in which those fields are ints that most are, if it is another than that of the column, and what they are: all of them,
    /// or those but a few.
    pub fn better_notation(&self) -> Option<(Notation, &'static str)> {
        let (decimals, dates) = (self.texts.decimals(), self.texts.dates());
        let (notation, noun) = match (decimals, dates) {
            (Some(_), _) if self.numbers() == self.most() => (self.decimal()?, "the decimals"),
            (_, Some(dates)) if dates.count == self.most() => (Notation::Date, "the dates"),
            _ => return None,
        };
        let which = if self.others() == 0 { "them" } else { noun };
        Some((notation, which))
    }

    // The notation in which the decimals and the ints of the column are ints, if 64 bits hold each.
    fn decimal(&self) -> Option<Notation> {
        let places = match self.notation {
            Notation::Decimal(scale) => self.texts.places().max(scale.places() as u64),
            _ => self.texts.places(),
        };
        let width = match self.notation {
            Notation::Date => self.texts.width(),
            _ => self.width.max(self.texts.width()),
        };
        if width.saturating_add(places) > u64::from(Scale::MAX) {
            return None;
        }
        Scale::new(u8::try_from(places).ok()?).map(Notation::Decimal)
    }

    /// Writes what the fields are: `48740 ints, 248 "N/A", 29 others (first "85,3", line 195)`. Files are named if there are more than one.
    pub fn write<E: Write>(&self, names: &[&str], err: &mut E) -> Option<()> {
        let mut comma = "";
        self.write_ints(&mut comma, err)?;
        write_part(&mut comma, self.bools, "bool", err)?;
        if let Some(decimals) = self.texts.decimals() {
            write_part(&mut comma, decimals.count, "decimal", err)?;
            write!(err, " to {}", Places(self.texts.places())).ok()?;
            self.write_few(decimals, names, err)?;
        }
        if let Some(dates) = self.texts.dates() {
            write_part(&mut comma, dates.count, "date", err)?;
            self.write_few(dates, names, err)?;
        }
        self.write_others(comma, names, err)
    }

    // Writes how many fields are ints in the notation of the column.
    fn write_ints<E: Write>(&self, comma: &mut &'static str, err: &mut E) -> Option<()> {
        match self.notation {
            Notation::Plain => write_part(comma, self.ints, "int", err),
            Notation::Date => write_part(comma, self.ints, "date", err),
            Notation::Decimal(scale) if self.ints > 0 => {
                write_part(comma, self.ints, "decimal", err)?;
                write!(err, " of at most {}", Places(scale.places() as u64)).ok()
            }
            Notation::Decimal(_) => Some(()),
        }
    }

    // Writes the place of the first of these fields, if they are a tenth or fewer.
    fn write_few<E: Write>(&self, seen: Seen, names: &[&str], err: &mut E) -> Option<()> {
        if seen.count.saturating_mul(NEARLY) > self.total() {
            return Some(());
        }
        let place = Place::of(seen.first, names);
        write!(err, " (first {place})").ok()
    }

    // Writes the text that occurs most often, and how many others there are.
    fn write_others<E: Write>(
        &self,
        mut comma: &'static str,
        names: &[&str],
        err: &mut E,
    ) -> Option<()> {
        let texts = self.texts.others();
        let mut others = texts.total();
        let most = self.most_frequent();
        if let Some((text, seen)) = most.and_then(|most| texts.text(most)) {
            write!(err, "{comma}{} {}", seen.count, Quoted(text)).ok()?;
            others = others.saturating_sub(seen.count);
            comma = ", ";
        }
        write_part(&mut comma, others, "other", err)?;
        let first = if most == Some(0) { 1 } else { 0 };
        match texts.text(first) {
            Some((text, seen)) if others > 0 => {
                let (text, place) = (Quoted(text), Place::of(seen.first, names));
                write!(err, " (first {text}, {place})").ok()
            }
            _ => Some(()),
        }
    }

    // The number of the text that occurs most often, if it does more than once.
    fn most_frequent(&self) -> Option<usize> {
        let texts = self.texts.others();
        let most = texts.next_frequent(None)?;
        let (_, seen) = texts.text(most)?;
        (seen.count > 1).then_some(most)
    }
}

// How many of some fields there are.
fn count_of(seen: Option<Seen>) -> u64 {
    seen.map_or(0, |seen| seen.count)
}

// Writes how many fields are of a sort, if any are, and what has to stand before the next part.
fn write_part<E: Write>(
    comma: &mut &'static str,
    count: u64,
    noun: &str,
    err: &mut E,
) -> Option<()> {
    if count == 0 {
        return Some(());
    }
    let plural = if count == 1 { "" } else { "s" };
    write!(err, "{comma}{count} {noun}{plural}").ok()?;
    *comma = ", ";
    Some(())
}

// A line of a file, which is named if there are more than one.
#[derive(Clone, Copy)]
struct Place<'a> {
    name: Option<&'a str>,
    line: u64,
}

impl<'a> Place<'a> {
    fn of(place: (u16, u64), names: &[&'a str]) -> Place<'a> {
        let (file, line) = place;
        let name = if names.len() > 1 {
            names.get(usize::from(file)).copied()
        } else {
            None
        };
        Place { name, line }
    }
}

impl Display for Place<'_> {
    fn fmt<W: fmt::Write>(&self, f: &mut Formatter<W>) -> fmt::Result {
        let line = self.line;
        match self.name {
            Some(name) => write!(f, "{name}:{line}"),
            None => write!(f, "line {line}"),
        }
    }
}
