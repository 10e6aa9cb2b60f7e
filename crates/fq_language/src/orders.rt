//! Where steps order texts of the sources.
use crate::plans::{Plan, Source, Step};
use crate::words::{aggregate_words, binary_word};
use fq_column::{Kind, Memory};
use fq_expr::{Binary, Expr, RowStep};
use fq_ops::{Agg, Function, How, What};
use fq_places::Quoted;
use std::alloc::Global;
use std::fmt;
use std::fmt::{Display, Formatter, Write};

/// A step that orders the texts of a column of a source: by `min` or `max`, or by a comparison with `lt`, `le`, `gt` or `ge`. Its text says
/// so: `step 2: "max" compares "price" as texts`.
#[derive(Clone, Copy)]
pub struct TextOrder<'a> {
    step: usize,
    word: &'static str,
    origin: Origin<'a>,
}

// A column of a source.
#[derive(Clone, Copy)]
struct Origin<'a> {
    source: usize,
    column: usize,
    name: &'a str,
}

impl TextOrder<'_> {
    /// The number of the source, from 0.
    pub fn source(&self) -> usize {
        self.origin.source
    }

    /// The number of the column in the source, from 0.
    pub fn column(&self) -> usize {
        self.origin.column
    }
}

impl Display for TextOrder<'_> {
    fn fmt<W: Write>(&self, f: &mut Formatter<W>) -> fmt::Result {
        let name = Quoted(self.origin.name.as_bytes());
        let (step, word) = (self.step, self.word);
        write!(f, "step {step}: \"{word}\" compares {name} as texts")
    }
}

impl Plan {
    /// The steps that order texts of a column of a source, in order. `Memory` if an allocation fails.
    pub fn text_orders(&self, alloc: Global) -> Result<Vec<TextOrder<'_>>, Memory> {
        let mut found = Vec::new(alloc);
        let main = self.sources.len().saturating_sub(1);
        let Some(source) = self.sources.get(main) else {
            // Not reached: a plan has a source.
            return Ok(found);
        };
        let mut frame = Frame::of(alloc, main, source)?;
        for (step, it) in self.steps.iter().enumerate() {
            let mut finder = Finder { step, found };
            frame = frame.after(alloc, it, self.sources.as_slice(), &mut finder)?;
            found = finder.found;
        }
        Ok(found)
    }
}

// What is found, and the number of the step that is looked at.
#[derive(Drop)]
struct Finder<'a> {
    step: usize,
    found: Vec<TextOrder<'a>>,
}

impl<'a> Finder<'a> {
    // Adds an order of a column, if it is a text of a source.
    fn add(&mut self, word: &'static str, origin: Option<Origin<'a>>) -> Result<(), Memory> {
        if let Some(origin) = origin {
            let step = self.step;
            self.found.push(TextOrder { step, word, origin })?;
        }
        Ok(())
    }

    // Finds the comparisons by order in an expression over a frame.
    fn find_in(&mut self, frame: &Frame<'a>, expression: &Expr) -> Result<(), Memory> {
        match expression {
            Expr::Two(op, left, right) => {
                if orders(*op) {
                    let word = binary_word(*op);
                    self.add(word, frame.origin_of(left))?;
                    self.add(word, frame.origin_of(right))?;
                }
                self.find_in(frame, left)?;
                self.find_in(frame, right)
            }
            Expr::One(_, part) => self.find_in(frame, part),
            _ => Ok(()),
        }
    }
}

// Whether an operation compares by order.
fn orders(op: Binary) -> bool {
    matches!(op, Binary::Lt | Binary::Le | Binary::Gt | Binary::Ge)
}

// The columns before a step: their names, and of each that has the texts of a column of a source, that column.
#[derive(Drop)]
struct Frame<'a> {
    columns: Vec<(String, Option<Origin<'a>>)>,
}

impl<'a> Frame<'a> {
    // The columns of the source of this number.
    fn of(alloc: Global, number: usize, source: &'a Source) -> Result<Frame<'a>, Memory> {
        let mut frame = Frame {
            columns: Vec::new(alloc),
        };
        for (column, (name, kind)) in source.columns.iter().enumerate() {
            let name = name.as_str();
            let origin = match kind {
                Kind::Text => Some(Origin {
                    source: number,
                    column,
                    name,
                }),
                _ => None,
            };
            frame.set(alloc, name, origin)?;
        }
        Ok(frame)
    }

    // Sets the column of a name, in its place or last.
    fn set(&mut self, alloc: Global, name: &str, origin: Option<Origin<'a>>) -> Result<(), Memory> {
        for column in &mut self.columns {
            if column.0.as_str() == name {
                column.1 = origin;
                return Ok(());
            }
        }
        let name = String::from_str(alloc, name)?;
        self.columns.push((name, origin))?;
        Ok(())
    }

    // Whether there is a column of this name.
    fn has(&self, name: &str) -> bool {
        self.columns.iter().any(|column| column.0.as_str() == name)
    }

    // The column of a source whose texts the column of a name has, if it has some.
    fn origin(&self, name: &str) -> Option<Origin<'a>> {
        self.columns
            .iter()
            .find(|column| column.0.as_str() == name)
            .and_then(|column| column.1)
    }

    // The column of a source whose texts an expression is, if it is a column that has some.
    fn origin_of(&self, expression: &Expr) -> Option<Origin<'a>> {
        match expression {
            Expr::Col(name) => self.origin(name.as_str()),
            _ => None,
        }
    }

    // The columns after a step, which finds what it orders.
    fn after(
        self,
        alloc: Global,
        step: &Step,
        sources: &'a [Source],
        finder: &mut Finder<'a>,
    ) -> Result<Frame<'a>, Memory> {
        match step {
            Step::Rows(RowStep::Filter(condition)) => {
                finder.find_in(&self, condition)?;
                Ok(self)
            }
            Step::Rows(RowStep::WithColumns(outputs)) => {
                let after = self.copy(alloc)?;
                self.with_outputs(alloc, outputs.as_slice(), after, finder)
            }
            Step::Rows(RowStep::Select(outputs)) => {
                let after = Frame {
                    columns: Vec::new(alloc),
                };
                self.with_outputs(alloc, outputs.as_slice(), after, finder)
            }
            Step::Join {
                source,
                on,
                how,
                ..
            } => match (how, usize::try_from(*source)) {
                (How::Inner | How::Left, Ok(number)) => {
                    self.joined(alloc, number, sources, on.as_slice())
                }
                _ => Ok(self),
            },
            Step::GroupBy { keys, aggs } => {
                self.grouped(alloc, keys.as_slice(), aggs.as_slice(), finder)
            }
            Step::RollingSum { name, .. } => {
                let mut after = self;
                after.set(alloc, name.as_str(), None)?;
                Ok(after)
            }
        }
    }

    // The same columns.
    fn copy(&self, alloc: Global) -> Result<Frame<'a>, Memory> {
        let mut columns = Vec::with_capacity(alloc, self.columns.len())?;
        for (name, origin) in &self.columns {
            columns.push((String::from_str(alloc, name.as_str())?, *origin))?;
        }
        Ok(Frame { columns })
    }

    // Some columns, with outputs over these.
    fn with_outputs(
        self,
        alloc: Global,
        outputs: &[(String, Expr)],
        mut after: Frame<'a>,
        finder: &mut Finder<'a>,
    ) -> Result<Frame<'a>, Memory> {
        for (name, expression) in outputs {
            finder.find_in(&self, expression)?;
            after.set(alloc, name.as_str(), self.origin_of(expression))?;
        }
        Ok(after)
    }

    // The columns after a join with the source of a number.
    fn joined(
        self,
        alloc: Global,
        number: usize,
        sources: &'a [Source],
        on: &[String],
    ) -> Result<Frame<'a>, Memory> {
        let Some(source) = sources.get(number) else {
            return Ok(self);
        };
        let right = Frame::of(alloc, number, source)?;
        let mut after = self.copy(alloc)?;
        for (name, origin) in &right.columns {
            if on.contains(name) {
                continue;
            }
            let mut output = String::from_str(alloc, name.as_str())?;
            if self.has(name.as_str()) {
                output.push_str("_right")?;
            }
            after.set(alloc, output.as_str(), *origin)?;
        }
        Ok(after)
    }

    // The columns after a grouping: the keys and the aggregates, of which the least, the greatest, the first and the last text of a
    // column are texts of it.
    fn grouped(
        self,
        alloc: Global,
        keys: &[String],
        aggs: &[Agg],
        finder: &mut Finder<'a>,
    ) -> Result<Frame<'a>, Memory> {
        let mut after = Frame {
            columns: Vec::new(alloc),
        };
        for key in keys {
            after.set(alloc, key.as_str(), self.origin(key.as_str()))?;
        }
        for agg in aggs {
            let origin = match &agg.what {
                What::Of(Function::Min | Function::Max, column) => {
                    let origin = self.origin(column.as_str());
                    finder.add(aggregate_words(&agg.what).0, origin)?;
                    origin
                }
                What::Of(Function::First | Function::Last, column) => self.origin(column.as_str()),
                _ => None,
            };
            after.set(alloc, agg.name.as_str(), origin)?;
        }
        Ok(after)
    }
}
