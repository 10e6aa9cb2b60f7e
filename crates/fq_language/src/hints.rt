//! What to do about operands of the wrong kind.
use fq_column::{Kind, Schema};
use fq_expr::Expr;
use fq_notation::date;
use fq_places::Quoted;
use std::fmt;
use std::fmt::{Display, Formatter, Write};

/// What to do about operands, after what is said of them.
#[derive(Clone, Copy)]
pub enum Hint<'a> {
    /// Nothing is known.
    Nothing,
    /// A text may mean the column of its name: `; a column is {"col": "t"}`.
    Column(&'a str),
    /// A text is a date, which is an int in a plan: `; as an int, this date is 20240201`.
    Date(i64),
    /// A column of texts stands where a number has to: `; give "t" the kind "int"`.
    Number(&'a str),
}

impl<'a> Hint<'a> {
    /// Of the first operand that is a text and, where a schema is given, names a column of it, or is a date.
    pub fn of(operands: &[&'a Expr], schema: Option<&Schema>) -> Hint<'a> {
        for operand in operands {
            if let Expr::Text(text) = operand {
                if schema.is_none_or(|schema| schema.position(text.as_str()).is_some()) {
                    return Hint::Column(text.as_str());
                }
                if let Some(date) = date(text.as_str().as_bytes()) {
                    return Hint::Date(date);
                }
            }
        }
        Hint::Nothing
    }

    /// The same of operands that have to be numbers, or else of the first that is a column of texts.
    pub fn of_numbers(operands: &[&'a Expr], schema: &Schema) -> Hint<'a> {
        match Hint::of(operands, Some(schema)) {
            Hint::Nothing => Hint::of_text_column(operands, schema),
            hint => hint,
        }
    }

    // Of the first operand that is a column of texts.
    fn of_text_column(operands: &[&'a Expr], schema: &Schema) -> Hint<'a> {
        for operand in operands {
            if let Expr::Col(name) = operand
                && matches!(schema.kind_of(name.as_str()), Ok(Kind::Text))
            {
                return Hint::Number(name.as_str());
            }
        }
        Hint::Nothing
    }
}

impl Display for Hint<'_> {
    fn fmt<W: Write>(&self, f: &mut Formatter<W>) -> fmt::Result {
        match self {
            Hint::Nothing => Ok(()),
            Hint::Column(name) => {
                write!(f, "; a column is {{\"col\": {}}}", Quoted(name.as_bytes()))
            }
            Hint::Date(date) => write!(f, "; as an int, this date is {date}"),
            Hint::Number(name) => {
                write!(f, "; give {} the kind \"int\"", Quoted(name.as_bytes()))
            }
        }
    }
}
