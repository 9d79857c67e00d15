//! Names with their sorts, and parameters.

ghost use Rattle.std.specs.Prelude.{Some, map};
ghost use Rattle.ioa_cursor.specs.Outcome.{Reads};
ghost use Rattle.ioa_cursor.specs.declared.cursor.Unread.TheVariants.{Memory};
ghost use Rattle.ioa_source.specs.PlainText.{named};
ghost use Rattle.ioa_source.specs.TextView.{declared_of, parameter_of};
ghost use Rattle.ioa_part_reader.specs.Groups.{group_of};
ghost use Rattle.ioa_part_reader.specs.Reading as spec;
ghost use Rattle.ioa_values.specs.Outcome.{Matches};

use crate::sort::sort;
use ioa_cursor::{Tokens, Unread};
use ioa_source::{Declared, Parameter, Sort};
use ioa_term_reader::term;
use ioa_terms::Word;
use ioa_tokens::Mark;
use std::alloc::Global;

/// `a, b: S`: names of one sort.
#[derive(Drop)]
pub(crate) struct NamesOfSort {
    names: Vec<Word>,
    sort: Sort,
}

impl NamesOfSort {
    /// Each name with the sort.
    fn to_declared(&self, alloc: Global) -> Result<Vec<Declared<()>>, Unread>
        ensures { Matches Memory (λ v. map declared_of v.items) result (Some (group_of self.now)) }
    {
        let mut declared = Vec::new(alloc);
        for name in &self.names {
            declared.push(Declared {
                name: name.try_copy(alloc)?,
                sort: self.sort.try_copy(alloc)?,
                shape: (),
            })?;
        }
        Ok(declared)
    }

    /// Each name with the sort, as a parameter of an entry.
    fn parameters(&self, alloc: Global) -> Result<Vec<Parameter<(), (), ()>>, Unread>
        ensures { Matches Memory (λ v. map parameter_of v.items) result (Some (map named (group_of self.now))) }
    {
        let mut parameters = Vec::new(alloc);
        for name in &self.names {
            parameters.push(Parameter::Declared(Declared {
                name: name.try_copy(alloc)?,
                sort: self.sort.try_copy(alloc)?,
                shape: (),
            }))?;
        }
        Ok(parameters)
    }
}

/// Word {`,` Word}
#[tactic(auto, unfolding(crate::specs::Reading::words, crate::specs::bind))]
pub(crate) fn words(alloc: Global, tokens: &mut Tokens<'_>) -> Result<Vec<Word>, Unread>
    ensures { Reads (λ v. v.items) (spec.words tokens.old) result tokens.new }
{
    let mut words = Vec::new(alloc);
    words.push(tokens.word(alloc)?)?;
    for _turn in 0..tokens.len() {
        if !tokens.skip(Mark::Comma) {
            return Ok(words);
        }
        let word = tokens.word(alloc)?;
        words.push(word)?;
    }
    Ok(words)
}

/// Word {`,` Word} `:` Sort. `room` is how many more brackets may be opened.
#[tactic(auto, unfolding(crate::specs::Reading::declared_group, crate::specs::bind))]
fn declared_group(
    alloc: Global,
    tokens: &mut Tokens<'_>,
    room: usize,
) -> Result<NamesOfSort, Unread>
    ensures { Reads group_of (spec.declared_group room tokens.old) result tokens.new }
{
    let names = words(alloc, tokens)?;
    tokens.expect(Mark::Colon)?;
    let sort = sort(alloc, tokens, room)?;
    Ok(NamesOfSort { names, sort })
}

/// Declared {`,` Declared}
#[tactic(auto, unfolding(crate::specs::Reading::declared_names, crate::specs::bind))]
pub(crate) fn declared_names(
    alloc: Global,
    tokens: &mut Tokens<'_>,
    room: usize,
) -> Result<Vec<Declared<()>>, Unread>
    ensures { Reads (λ v. map declared_of v.items) (spec.declared_names room tokens.old) result tokens.new }
{
    let mut declared = declared_group(alloc, tokens, room)?.to_declared(alloc)?;
    for _turn in 0..tokens.len() {
        if !tokens.skip(Mark::Comma) {
            return Ok(declared);
        }
        let group = declared_group(alloc, tokens, room)?;
        let mut more = group.to_declared(alloc)?;
        declared.append(&mut more)?;
    }
    Ok(declared)
}

/// `const` Term, or Declared
#[tactic(auto, unfolding(crate::specs::Reading::parameter_group, crate::specs::bind, crate::specs::choose))]
fn parameter_group(
    alloc: Global,
    tokens: &mut Tokens<'_>,
    room: usize,
) -> Result<Vec<Parameter<(), (), ()>>, Unread>
    ensures { Reads (λ v. map parameter_of v.items) (spec.parameter_group room tokens.old) result tokens.new }
{
    if !tokens.skip(Mark::Const) {
        return declared_group(alloc, tokens, room)?.parameters(alloc);
    }
    let constant = term(alloc, tokens, room)?.into_tree();
    let mut parameters = Vec::with_capacity(alloc, 1)?;
    parameters.push(Parameter::Const(constant))?;
    Ok(parameters)
}

/// Param {`,` Param}
#[tactic(auto, unfolding(crate::specs::Reading::parameters, crate::specs::bind))]
pub(crate) fn parameters(
    alloc: Global,
    tokens: &mut Tokens<'_>,
    room: usize,
) -> Result<Vec<Parameter<(), (), ()>>, Unread>
    ensures { Reads (λ v. map parameter_of v.items) (spec.parameters room tokens.old) result tokens.new }
{
    let mut parameters = parameter_group(alloc, tokens, room)?;
    for _turn in 0..tokens.len() {
        if !tokens.skip(Mark::Comma) {
            return Ok(parameters);
        }
        let mut more = parameter_group(alloc, tokens, room)?;
        parameters.append(&mut more)?;
    }
    Ok(parameters)
}
