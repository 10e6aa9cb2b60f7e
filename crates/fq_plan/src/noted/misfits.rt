//! Why a step leaves columns without notations, for people.
use crate::checks::Checked;
use crate::noted::NotationFault;
use crate::noted::planned_steps::{PlannedStep, items_in};
use fq_column::{Kind, Memory, Schema};
use fq_expr::{Expr, Misfit, RowStep};
use fq_notation::{Followed, NamedNotations, Notation, Scales};
use fq_ops::{Agg, Function, What, right_name_of};
use fq_run::Join;
use std::alloc::Global;

// What else has the name of a column that a step makes.
#[derive(Clone, Copy, PartialEq, Eq)]
enum Namesake {
    // Nothing.
    None,
    // Ints of the files.
    Files,
    // What another step makes.
    Steps,
}

impl Checked {
    /// Why a step leaves columns without notations, by the refusal of those that names declare: what its parts are, and what to write or to
    /// name. `None` for other refusals. `Memory` if an allocation fails.
    pub fn misfit(
        &self,
        alloc: Global,
        declared: &NamedNotations,
        fault: NotationFault,
    ) -> Result<Option<String>, Memory> {
        let (number, item) = match fault {
            NotationFault::Step(number, _) => (number, None),
            NotationFault::Item(number, item, _) => (number, Some(item)),
            NotationFault::NoColumn(_) | NotationFault::Twice(_) | NotationFault::Memory => {
                return Ok(None);
            }
        };
        let (steps, schemas) = (self.steps(alloc)?, self.schemas(alloc)?);
        let notations = self.notations(alloc, declared)?;
        let (Some(schema), Some(named)) = (schemas.get(number), notations.get(number)) else {
            return Ok(None);
        };
        match steps.get(number) {
            Some(PlannedStep::Row(row)) => {
                let item = item.unwrap_or(0);
                if let Some(misfit) = misfit_in(row, item, schema, named) {
                    let made = match misfit.short_column() {
                        Some(name) if declared.given(name).is_some() && !self.reads_ints(name) => {
                            made_before(
                                name,
                                number,
                                steps.as_slice(),
                                schemas.as_slice(),
                                notations.as_slice(),
                            )
                        }
                        _ => None,
                    };
                    return Ok(Some(parts_text(alloc, &misfit, made)?));
                }
                let Some((name, expression)) = items_in(row).get(item) else {
                    return Ok(None);
                };
                let Some(followed) = expression.followed(schema, named) else {
                    return Ok(None);
                };
                let text = self.name_text(
                    alloc,
                    name.as_str(),
                    followed,
                    declared,
                    steps.as_slice(),
                )?;
                Ok(Some(text))
            }
            Some(PlannedStep::Join(join)) => match item {
                Some(item) => self.key_text(alloc, join, item, schema, named, declared),
                None => self.right_text(alloc, join, schema, declared),
            },
            Some(PlannedStep::GroupBy(group_by)) => {
                let Some(agg) = group_by.aggs.as_slice().get(item.unwrap_or(0)) else {
                    return Ok(None);
                };
                let text = self.aggregate_text(
                    alloc,
                    agg,
                    schema,
                    named,
                    declared,
                    steps.as_slice(),
                )?;
                Ok(Some(text))
            }
            Some(PlannedStep::RollingSum(sum)) => {
                let (column, name) = (sum.column.as_str(), sum.name.as_str());
                let followed = Followed::of_named(schema, named, column);
                let text = self.sum_text(
                    alloc,
                    column,
                    name,
                    followed,
                    declared,
                    steps.as_slice(),
                )?;
                Ok(Some(text))
            }
            None => Ok(None),
        }
    }

    // Why an aggregate does.
    fn aggregate_text(
        &self,
        alloc: Global,
        agg: &Agg,
        schema: &Schema,
        named: &NamedNotations,
        declared: &NamedNotations,
        steps: &[PlannedStep<'_>],
    ) -> Result<String, Memory> {
        let name = agg.name.as_str();
        let What::Of(function, column) = &agg.what else {
            return count_text(alloc, name);
        };
        let followed = Followed::of_named(schema, named, column.as_str());
        match function {
            Function::Sum => {
                self.sum_text(alloc, column.as_str(), name, followed, declared, steps)
            }
            Function::Count | Function::Len | Function::NUnique => count_text(alloc, name),
            Function::Min | Function::Max | Function::First | Function::Last => {
                self.name_text(alloc, name, followed, declared, steps)
            }
        }
    }

    // Why a sum of a column does, under a name.
    fn sum_text(
        &self,
        alloc: Global,
        column: &str,
        name: &str,
        followed: Followed,
        declared: &NamedNotations,
        steps: &[PlannedStep<'_>],
    ) -> Result<String, Memory> {
        if followed.numbers().is_none() {
            return Ok(format!(in alloc; "{column:?} is a date, and dates have no sum")?);
        }
        self.name_text(alloc, name, followed, declared, steps)
    }

    // What stands under a name, what it is declared to be, and what to name.
    fn name_text(
        &self,
        alloc: Global,
        name: &str,
        followed: Followed,
        declared: &NamedNotations,
        steps: &[PlannedStep<'_>],
    ) -> Result<String, Memory> {
        let Some(scales) = followed.numbers() else {
            return date_text(alloc, name);
        };
        let is_date = declared.given(name) == Some(Notation::Date);
        let most = scales.most();
        Ok(match self.namesake(name, steps) {
            Namesake::Files if is_date => {
                format!(in alloc;
                    "{name:?} {scales}, and is a date in the files: give it another name"
                )?
            }
            Namesake::Files => {
                let in_files = declared.of(name, Kind::Whole);
                format!(in alloc;
                    "{name:?} {scales}, and is {in_files} in the files: give it another name"
                )?
            }
            Namesake::Steps => {
                format!(in alloc;
                    "{name:?} {scales}, and another step makes it too: give it another name"
                )?
            }
            Namesake::None if is_date => {
                format!(in alloc; "{name:?} {scales}, and is not a date: leave it out of --date")?
            }
            Namesake::None if !may_be_declared(name) => {
                format!(in alloc; "{name:?} {scales}: give it another name")?
            }
            Namesake::None => format!(in alloc; "{name:?} {scales}: --decimal {name}={most}")?,
        })
    }

    // What else has the name of a column that a step makes.
    fn namesake(&self, name: &str, steps: &[PlannedStep<'_>]) -> Namesake {
        if self.reads_ints(name) {
            return Namesake::Files;
        }
        let mut makers = 0u32;
        for step in steps {
            if step.computes(name) {
                makers = makers.saturating_add(1);
            }
        }
        if makers > 1 {
            Namesake::Steps
        } else {
            Namesake::None
        }
    }

    // The notations of a join's key.
    fn key_text(
        &self,
        alloc: Global,
        join: &Join,
        item: usize,
        left: &Schema,
        named: &NamedNotations,
        declared: &NamedNotations,
    ) -> Result<Option<String>, Memory> {
        let (Some(key), Some(right)) = (
            join.on.as_slice().get(item),
            self.side_columns(join.source),
        ) else {
            return Ok(None);
        };
        let key = key.as_str();
        let (left_is, right_is) = (named.at(left, key), declared.at(right, key));
        let mut text = format!(in alloc;
            "the key {key:?} is {left_is} on the left and {right_is} on the right"
        )?;
        match (declared.given(key), left_is) {
            (None, Notation::Decimal(scale)) => {
                text.push_str(format!(in alloc; ": --decimal {key}={}", scale.places())?.as_str())?;
            }
            (None, Notation::Date) => {
                text.push_str(format!(in alloc; ": --date {key}")?.as_str())?;
            }
            _ => {
                if let Some(missing) = missing_places(left_is, right_is) {
                    text.push_str(": multiply the left one by 1")?;
                    for _ in 0..missing {
                        text.push('0')?;
                    }
                }
            }
        }
        Ok(Some(text))
    }

    // The first right column of a join whose new name is declared to be something else.
    fn right_text(
        &self,
        alloc: Global,
        join: &Join,
        left: &Schema,
        declared: &NamedNotations,
    ) -> Result<Option<String>, Memory> {
        let Some(right) = self.side_columns(join.source) else {
            return Ok(None);
        };
        for place in 0..right.len() {
            let followed = Followed::of_named(right, declared, right.name(place));
            let name = right_name_of(alloc, left, right.name(place))?;
            let name = name.as_str();
            let is = declared.at(right, right.name(place));
            if declared.given(name).is_some() && declared.of(name, right.kind(place)) != is {
                return Ok(Some(self.name_text(alloc, name, followed, declared, &[])?));
            }
        }
        Ok(None)
    }
}

// The parts of a row-wise step that do not go together, in its predicate or in an output.
fn misfit_in<'a>(
    row: &'a RowStep,
    item: usize,
    schema: &Schema,
    named: &NamedNotations,
) -> Option<Misfit<'a>> {
    match row {
        RowStep::Filter(predicate) => predicate.misfit(schema, named),
        RowStep::WithColumns(items) | RowStep::Select(items) => {
            items.get(item)?.1.misfit(schema, named)
        }
    }
}

// What parts of an expression are, and what to write; or which scale to name of the column that a step before made, if it may have it.
fn parts_text(alloc: Global, misfit: &Misfit<'_>, made: Option<Scales>) -> Result<String, Memory> {
    let wanted = misfit.wanted_places();
    if let (Some(name), Some(scales)) = (misfit.short_column(), made) {
        if scales.read().is_none() && scales.may_be(wanted) {
            return Ok(format!(in alloc; "{name:?} {scales}: --decimal {name}={wanted}")?);
        }
    }
    Ok(format!(in alloc; "{misfit}")?)
}

// Whether `--decimal` can have this name, among others and before its scale.
fn may_be_declared(name: &str) -> bool {
    !name.contains(',') && !name.contains('=')
}

// How many places the left numbers have less than the right ones, if they have less.
fn missing_places(left: Notation, right: Notation) -> Option<usize> {
    let missing = places(right)?.checked_sub(places(left)?)?;
    (missing > 0).then_some(missing)
}

// How many places the numbers of this notation have.
fn places(notation: Notation) -> Option<usize> {
    match notation {
        Notation::Plain => Some(0),
        Notation::Decimal(scale) => Some(scale.places()),
        Notation::Date => None,
    }
}

// What to give in place of a scale of dates.
fn date_text(alloc: Global, name: &str) -> Result<String, Memory> {
    if may_be_declared(name) {
        Ok(format!(in alloc; "{name:?} is a date: --date {name} in place of --decimal")?)
    } else {
        Ok(format!(in alloc; "{name:?} is a date: leave it out of --decimal")?)
    }
}

// What a number of rows or of values is.
fn count_text(alloc: Global, name: &str) -> Result<String, Memory> {
    Ok(format!(in alloc; "{name:?} is a count: leave it out of --decimal and --date")?)
}

// The scales of what makes a column, in the last step before a step that does.
fn made_before(
    name: &str,
    number: usize,
    steps: &[PlannedStep<'_>],
    schemas: &[Schema],
    notations: &[NamedNotations],
) -> Option<Scales> {
    let mut made = None;
    for before in 0..number {
        let Some(step) = steps.get(before) else {
            return made;
        };
        if step.computes(name) {
            made = match (step, schemas.get(before), notations.get(before)) {
                (PlannedStep::Row(row), Some(schema), Some(named)) => {
                    scales_of(name, row, schema, named)
                }
                _ => None,
            };
        }
    }
    made
}

// The scales of the numbers of the last output of a name.
fn scales_of(name: &str, row: &RowStep, schema: &Schema, named: &NamedNotations) -> Option<Scales> {
    let mut scales = None;
    for (item, expression) in items_in(row).iter() {
        if item.as_str() == name {
            scales = numbers_of(expression, schema, named);
        }
    }
    scales
}

// The scales of an expression's numbers.
fn numbers_of(expression: &Expr, schema: &Schema, named: &NamedNotations) -> Option<Scales> {
    expression.followed(schema, named)?.numbers()
}
