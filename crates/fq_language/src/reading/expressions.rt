//! Expressions.
ghost use Rattle.serde_json.specs.View.{view};
ghost use Rattle.fq_expr.specs.Expression.{Expression};
ghost use Rattle.fq_expr.specs.ExpressionData.{expression_of};
ghost use Rattle.fq_language.specs.Reading.{Answers};
ghost use Rattle.fq_language.specs.Spelling.{expression, leaf};

use crate::plans::Version;
use crate::reading::explanations::{other_word, wrong, wrong_length};
use crate::reading::values::only_member;
use crate::reading::{Listed, Named, Spelled, read_at, within};
use crate::reasons::{Explained, PartFault, Segment};
use crate::words::{BINARIES, UNARIES, Words, binary, unary};
use fq_column::Text;
use fq_expr::Expr;
use serde_json::Value;
use std::alloc::Global;

impl Spelled for Expr {
    ghost Part = { Expression };

    ghost spelled_by = { λ _. expression };

    ghost part_of = { expression_of };

    fn read(alloc: Global, version: Version, value: &Value) -> Explained<Expr> {
        read_expression(alloc, version, value)
    }
}

impl Named for Expr {
    const FORM: &'static str = "an output is [NAME, EXPRESSION]";
}

impl Listed for (String, Expr) {
    const ITEMS: &'static str = "outputs, each [NAME, EXPRESSION]";
}

// The expression that a value spells.
fn read_expression(alloc: Global, version: Version, value: &Value) -> Explained<Expr>
    ensures { Answers expression_of (expression (view value.now)) result }
{
    match value {
        Value::Null => Err(no_expression(alloc, value)),
        Value::Bool(truth) => Ok(Expr::Truth(*truth)),
        Value::Number(_) => Ok(Expr::Whole(i64::read(alloc, version, value)?)),
        Value::String(text) => Ok(Expr::Text(Text::new(alloc, text.as_str())?)),
        Value::Array(items) => {
            if items.len() == 2 {
                let (name, operand) = (&items[0], &items[1]);
                let Some(op) = unary(name) else {
                    return Err(no_unary(alloc, version, name));
                };
                let operand = within(Segment::Item(1), read_expression(alloc, version, operand))?;
                Ok(Expr::One(op, Box::new(alloc, operand)?))
            } else if items.len() == 3 {
                let (name, left, right) = (&items[0], &items[1], &items[2]);
                let Some(op) = binary(name) else {
                    return Err(no_binary(alloc, version, name));
                };
                let left = within(Segment::Item(1), read_expression(alloc, version, left))?;
                let right = within(Segment::Item(2), read_expression(alloc, version, right))?;
                let left = Box::new(alloc, left)?;
                Ok(Expr::Two(op, left, Box::new(alloc, right)?))
            } else {
                Err(no_operation(alloc, value))
            }
        }
        Value::Object(_) => read_leaf(alloc, version, value),
    }
}

// A column or a null: an object with one member.
fn read_leaf(alloc: Global, version: Version, value: &Value) -> Explained<Expr>
    ensures { Answers expression_of (leaf (view value.now)) result }
{
    if let Some(name) = only_member(value, "col") {
        let name = read_at(alloc, version, Segment::Member("col"), name)?;
        return Ok(Expr::Col(name));
    }
    match only_member(value, "null") {
        Some(kind) => {
            let kind = read_at(alloc, version, Segment::Member("null"), kind)?;
            Ok(Expr::Null(kind))
        }
        None => {
            let what = "is neither {\"col\": NAME} nor {\"null\": KIND}";
            Err(wrong(alloc, value, what))
        }
    }
}

// A null, which is not an expression.
fn no_expression(alloc: Global, value: &Value) -> PartFault {
    let what = "is not an expression; a null has a kind: {\"null\": KIND}";
    wrong(alloc, value, what)
}

// An array of neither two items nor three.
fn no_operation(alloc: Global, value: &Value) -> PartFault {
    let form = "an operation is [OPERATOR, OPERAND] or [OPERATOR, LEFT, RIGHT]";
    wrong_length(alloc, value, form)
}

// A first item of two that is not an operation on one value.
fn no_unary(alloc: Global, version: Version, name: &Value) -> PartFault {
    let takes = "takes two operands: [OPERATOR, LEFT, RIGHT]";
    no_operator(alloc, version, name, UNARIES, BINARIES, takes)
}

// A first item of three that is not an operation on two values.
fn no_binary(alloc: Global, version: Version, name: &Value) -> PartFault {
    let takes = "takes one operand: [OPERATOR, OPERAND]";
    no_operator(alloc, version, name, BINARIES, UNARIES, takes)
}

// A first item that is not one of these operations. If it is one of `others`, `takes` says what that takes.
fn no_operator(
    alloc: Global,
    version: Version,
    name: &Value,
    words: Words,
    others: Words,
    takes: &str,
) -> PartFault {
    other_word(alloc, version, name, words, others, takes).within(Segment::Item(0))
}
