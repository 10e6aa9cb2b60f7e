//! Words of the plan language: what each stands for, and how they are written in messages.
ghost use Rattle.std.specs.Prelude.{◌≡◌, ◌∷◌, Some, codes};
ghost use Rattle.serde_json.specs.View.{view};
ghost use Rattle.fq_ops.specs.declared.aggregates.Function.TheVariants.{Len};
ghost use Rattle.fq_language.specs.Parts.{under, word};
ghost use Rattle.fq_language.specs.Spelling.{binaries, functions, hows, kinds, unaries};

use crate::plans::Version;
use fq_column::Kind;
use fq_expr::{Binary, Unary};
use fq_ops::{Function, How, What};
use serde_json::Value;
use std::fmt;
use std::fmt::{Display, Formatter, Write};

/// Words that may stand in one place, in the order of the language: those of both versions, then those that version 2 adds.
///
/// They are written with commas, by `{:#}` in double quotes.
#[derive(Clone, Copy)]
pub struct Words(&'static str, &'static str);

pub const PLAN: Words = Words("version sources steps", "");

pub const SOURCE: Words = Words("files columns", "null_values");

pub const STEPS: Words = Words("filter with_columns select join group_by rolling_sum", "");

pub const JOIN: Words = Words("source on how", "nulls_equal");

pub const GROUP_BY: Words = Words("keys aggs", "");

pub const ROLLING_SUM: Words = Words("column window min_samples name", "");

impl Words {
    /// Those of a version.
    pub fn of(self, version: Version) -> Words {
        match version {
            Version::One => Words(self.0, ""),
            Version::Two => self,
        }
    }

    /// Whether the word is one of them.
    pub fn has(self, word: &str) -> bool {
        let newer = self.1.split_whitespace();
        self.0
            .split_whitespace()
            .chain(newer)
            .any(|other| other == word)
    }
}

impl Display for Words {
    fn fmt<W: Write>(&self, f: &mut Formatter<W>) -> fmt::Result {
        let mark = if f.alternate() { "\"" } else { "" };
        let words = self.0.split_whitespace().chain(self.1.split_whitespace());
        for (number, word) in words.enumerate() {
            let comma = if number == 0 { "" } else { ", " };
            write!(f, "{comma}{mark}{word}{mark}")?;
        }
        Ok(())
    }
}

pub const KINDS: Words = Words("int text bool", "");

/// The kind that a word names.
pub fn kind(value: &Value) -> Option<Kind>
    ensures { result ≡ word kinds (view value.now) }
{
    match value.as_str()? {
        "int" => Some(Kind::Whole),
        "text" => Some(Kind::Text),
        "bool" => Some(Kind::Truth),
        _ => None,
    }
}

pub const HOWS: Words = Words("inner left", "semi anti");

/// What a left row of a join gives, by the word of a version.
pub fn how(version: Version, value: &Value) -> Option<How>
    ensures { result ≡ word (hows version) (view value.now) }
{
    match (value.as_str()?, version) {
        ("inner", _) => Some(How::Inner),
        ("left", _) => Some(How::Left),
        ("semi", Version::Two) => Some(How::Semi),
        ("anti", Version::Two) => Some(How::Anti),
        _ => None,
    }
}

pub const AGGREGATES: Words = Words("len count sum min max first last n_unique", "");

/// The function of a column that a word names.
pub fn function(value: &Value) -> Option<Function>
    ensures { result ≡ word functions (view value.now) }
{
    match value.as_str()? {
        "sum" => Some(Function::Sum),
        "min" => Some(Function::Min),
        "max" => Some(Function::Max),
        "count" => Some(Function::Count),
        "first" => Some(Function::First),
        "last" => Some(Function::Last),
        "n_unique" => Some(Function::NUnique),
        _ => None,
    }
}

// The word of a function.
fn function_word(function: Function) -> &'static str
    ensures { under ((codes "len", Len) ∷ functions) result.now ≡ Some function }
{
    match function {
        Function::Len => "len",
        Function::Count => "count",
        Function::Sum => "sum",
        Function::Min => "min",
        Function::Max => "max",
        Function::First => "first",
        Function::Last => "last",
        Function::NUnique => "n_unique",
    }
}

/// The word of an aggregate, and the column that it is of.
pub fn aggregate_words(what: &What) -> (&'static str, Option<&str>) {
    match what {
        What::Len => (function_word(Function::Len), None),
        What::Of(function, column) => (function_word(*function), Some(column.as_str())),
    }
}

pub const UNARIES: Words = Words("neg not is_null is_not_null", "");

/// The operation on one value that a word names.
pub fn unary(value: &Value) -> Option<Unary>
    ensures { result ≡ word unaries (view value.now) }
{
    match value.as_str()? {
        "neg" => Some(Unary::Neg),
        "not" => Some(Unary::Not),
        "is_null" => Some(Unary::IsNull),
        "is_not_null" => Some(Unary::IsNotNull),
        _ => None,
    }
}

/// The word of an operation on one value.
pub fn unary_word(op: Unary) -> &'static str
    ensures { under unaries result.now ≡ Some op }
{
    match op {
        Unary::Neg => "neg",
        Unary::Not => "not",
        Unary::IsNull => "is_null",
        Unary::IsNotNull => "is_not_null",
    }
}

pub const BINARIES: Words = Words(
    "add sub mul floordiv mod eq ne lt le gt ge eq_missing and or fill_null",
    "",
);

/// The operation on two values that a word names.
pub fn binary(value: &Value) -> Option<Binary>
    ensures { result ≡ word binaries (view value.now) }
{
    match value.as_str()? {
        "add" => Some(Binary::Add),
        "sub" => Some(Binary::Sub),
        "mul" => Some(Binary::Mul),
        "floordiv" => Some(Binary::FloorDiv),
        "mod" => Some(Binary::Mod),
        "eq" => Some(Binary::Eq),
        "ne" => Some(Binary::Ne),
        "lt" => Some(Binary::Lt),
        "le" => Some(Binary::Le),
        "gt" => Some(Binary::Gt),
        "ge" => Some(Binary::Ge),
        "eq_missing" => Some(Binary::EqMissing),
        "and" => Some(Binary::And),
        "or" => Some(Binary::Or),
        "fill_null" => Some(Binary::FillNull),
        _ => None,
    }
}

/// The word of an operation on two values.
pub fn binary_word(op: Binary) -> &'static str
    ensures { under binaries result.now ≡ Some op }
{
    match op {
        Binary::Add => "add",
        Binary::Sub => "sub",
        Binary::Mul => "mul",
        Binary::FloorDiv => "floordiv",
        Binary::Mod => "mod",
        Binary::Eq => "eq",
        Binary::Ne => "ne",
        Binary::Lt => "lt",
        Binary::Le => "le",
        Binary::Gt => "gt",
        Binary::Ge => "ge",
        Binary::EqMissing => "eq_missing",
        Binary::And => "and",
        Binary::Or => "or",
        Binary::FillNull => "fill_null",
    }
}
