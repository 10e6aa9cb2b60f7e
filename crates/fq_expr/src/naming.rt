//! The notations of columns that steps make.
ghost use Rattle.std.specs.Prelude.{◌≡◌, ◌⊎◌, IfOk, IfErr, Ok, Err};
ghost use Rattle.fq_expr.specs.ExpressionData.{expression_of, items_of, step_of};
ghost use Rattle.fq_expr.specs.Naming.{are_digits, expression_noted, is_itself, is_remainder, item_noted, items_noted, made_of, multiplies, step_noted};

use crate::expressions::{Binary, Expr};
use crate::steps::RowStep;
use fq_column::Schema;
use fq_notation::{
    Followed, Made, NamedNotations, Notation, Said, StepUnnoted, Unnoted, days_noted, is_digits,
    notation_said, numbers_noted, said_at,
};
use std::alloc::Global;

impl RowStep {
    /// The notations after the step, under the names of its columns, by those before it.
    ///
    /// `said` has what the name of each output says, by its place. The name of an output past its end says nothing. `Item` is the first
    /// output that has no notation, `Step` says that the parts of a predicate cannot be compared, and `Memory` that an allocation failed.
    pub fn noted(
        &self,
        alloc: Global,
        schema: &Schema,
        named: NamedNotations,
        said: &[Said],
    ) -> Result<NamedNotations, StepUnnoted>
        ensures noted { IfOk result (λ after. step_noted schema.now named said.now (step_of self.now) ≡ Ok after) }
        ensures refused { IfErr result (λ fault. (step_noted schema.now named said.now (step_of self.now) ≡ Err fault) ⊎ (fault ≡ StepUnnoted.Memory)) }
    {
        match self {
            RowStep::Filter(predicate) => {
                if predicate.followed(schema, &named).is_none() {
                    return Err(StepUnnoted::Step(Unnoted::Differ));
                }
                Ok(named)
            }
            RowStep::WithColumns(items) => {
                let made = noted_items(alloc, items.as_slice(), schema, &named, said)?;
                Ok(made.before(named)?)
            }
            RowStep::Select(items) => { noted_items(alloc, items.as_slice(), schema, &named, said) }
        }
    }
}

// The names of items, each with its notation.
#[tactic(auto, using(fq_notation::proofs::NamingLemmas::before_all_append))]
fn noted_items(
    alloc: Global,
    items: &[(String, Expr)],
    schema: &Schema,
    named: &NamedNotations,
    said: &[Said],
) -> Result<NamedNotations, StepUnnoted>
    ensures noted { IfOk result (λ made. items_noted schema.now named.now said.now 0 (items_of items.now) ≡ Ok made) }
    ensures refused { IfErr result (λ fault. (items_noted schema.now named.now said.now 0 (items_of items.now) ≡ Err fault) ⊎ (fault ≡ StepUnnoted.Memory)) }
{
    let mut made = NamedNotations::with_capacity(alloc, items.len())?;
    for place in 0..items.len() {
        let (name, expression) = &items[place];
        match noted_item(
            schema,
            named,
            name.as_str(),
            expression,
            said_at(said, place),
        ) {
            Ok(notation) => made.add(alloc, name.as_str(), notation)?,
            Err(why) => return Err(StepUnnoted::Item(place, why)),
        }
    }
    Ok(made)
}

// The notation of an item. That of a column under its own name stays, since nothing is computed.
fn noted_item(
    schema: &Schema,
    named: &NamedNotations,
    name: &str,
    expression: &Expr,
    said: Said,
) -> Result<Notation, Unnoted>
    ensures { result ≡ item_noted schema.now named.now said (name.now, expression_of expression.now) }
{
    if expression.is_column(name) {
        return Ok(named.at(schema, name));
    }
    expression.noted(schema, named, said)
}

impl Expr {
    /// The notation of the expression's ints, as a column whose name says this, or why they have none; that of texts and truth values is
    /// digits. Allocates nothing.
    pub fn noted(
        &self,
        schema: &Schema,
        named: &NamedNotations,
        said: Said,
    ) -> Result<Notation, Unnoted>
        ensures { result ≡ expression_noted schema.now named.now said (expression_of self.now) }
    {
        let followed = self.followed(schema, named).ok_or(Unnoted::Differ)?;
        match followed {
            Followed::Numbers(scales) if self.has_columns() => {
                let made = self.made_of(schema, named);
                numbers_noted(said, made, scales)
            }
            Followed::Numbers(_) => Ok(notation_said(said)),
            Followed::Days => days_noted(said),
            Followed::Others => Ok(Notation::Plain),
        }
    }

    /// Whether the expression is the column of this name.
    pub fn is_column(&self, name: &str) -> bool
        ensures { result ≡ is_itself name.now (expression_of self.now) }
    {
        match self {
            Expr::Col(other) => name == other.as_str(),
            _ => false,
        }
    }

    // What the expression is made of.
    fn made_of(&self, schema: &Schema, named: &NamedNotations) -> Made
        ensures { result ≡ made_of schema.now named.now (expression_of self.now) }
    {
        Made {
            digits: self.are_digits(schema, named, false),
            of_digits: self.are_digits(schema, named, true),
            multiplied: self.multiplies(),
            remainder: self.is_remainder(),
        }
    }

    // Whether something that reads a column is multiplied.
    fn multiplies(&self) -> bool
        ensures { result ≡ multiplies (expression_of self.now) }
    {
        match self {
            Expr::Col(_) | Expr::Null(_) | Expr::Whole(_) | Expr::Text(_) | Expr::Truth(_) => false,
            Expr::One(_, part) => part.multiplies(),
            Expr::Two(op, left, right) => {
                (*op == Binary::Mul && (left.has_columns() || right.has_columns()))
                    || left.multiplies()
                    || right.multiplies()
            }
        }
    }

    // Whether the expression is itself a remainder.
    fn is_remainder(&self) -> bool
        ensures { result ≡ is_remainder (expression_of self.now) }
    {
        match self {
            Expr::Two(op, _, _) => *op == Binary::Mod,
            _ => false,
        }
    }

    // Whether all columns that the expression reads are digits, or, if days count too, days.
    fn are_digits(&self, schema: &Schema, named: &NamedNotations, days: bool) -> bool
        ensures { result ≡ are_digits schema.now named.now days (expression_of self.now) }
    {
        match self {
            Expr::Col(name) => is_digits(days, Followed::of_named(schema, named, name.as_str())),
            Expr::Null(_) | Expr::Whole(_) | Expr::Text(_) | Expr::Truth(_) => true,
            Expr::One(_, part) => part.are_digits(schema, named, days),
            Expr::Two(_, left, right) => left.are_digits(schema, named, days)
                && right.are_digits(schema, named, days),
        }
    }
}
