//! The pieces of declarations.

ghost use Rattle.std.specs.Prelude.{◌≡◌, map};
ghost use Rattle.ioa_tokens.specs.declared.mark.Mark.TheVariants as mark;
ghost use Rattle.ioa_terms.specs.SortView.{sort_of};
ghost use Rattle.ioa_terms.specs.View.{statement_of};
ghost use Rattle.ioa_source.specs.TextView.{declared_of, parameter_of, entry_of, variable_of, transition_of};
ghost use Rattle.ioa_source.specs.TextView.{schedule_of, automaton_of, form_of, type_of, declaration_of};
ghost use Rattle.ioa_source.specs.PlainText as plain;
ghost use Rattle.ioa_front.specs.Pieces.{Puts};
ghost use Rattle.ioa_front.specs.Spelling as spec;

use crate::piece::Pieces;
use crate::statements::{kind_mark, put_block, put_call, put_statements};
use crate::terms::{put_optional, put_term};
use ioa_source::{
    Automaton, Declaration, Declared, Entry, Parameter, Schedule, Sort, Transition,
    TypeDeclaration, TypeForm, Variable,
};
use ioa_terms::Statement;
use ioa_tokens::Mark;
use ioa_values::Word;
use std::alloc::AllocError;

/// Puts a sort.
pub(crate) fn put_sort<'a>(out: &mut Pieces<'a>, sort: &'a Sort) -> Result<(), AllocError>
    ensures { Puts (spec.sort_spelling (sort_of sort.now)) result out.old out.new }
{
    match sort {
        Sort::Bool => out.put_mark(Mark::Bool),
        Sort::Int => out.put_mark(Mark::Int),
        Sort::Nat => out.put_mark(Mark::Nat),
        Sort::Seq(items) => {
            out.put_mark(Mark::Seq)?;
            out.put_mark(Mark::OpenSquare)?;
            put_sort(out, items)?;
            out.put_mark(Mark::CloseSquare)
        }
        Sort::Set(members) => {
            out.put_mark(Mark::Set)?;
            out.put_mark(Mark::OpenSquare)?;
            put_sort(out, members)?;
            out.put_mark(Mark::CloseSquare)
        }
        Sort::Map(keys, values) => {
            out.put_mark(Mark::Map)?;
            out.put_mark(Mark::OpenSquare)?;
            put_sort(out, keys)?;
            out.put_mark(Mark::Comma)?;
            put_sort(out, values)?;
            out.put_mark(Mark::CloseSquare)
        }
        Sort::Named(name) => out.put_word(name),
    }
}

/// Puts a name with its sort.
fn put_declared<'a>(out: &mut Pieces<'a>, declared: &'a Declared<()>) -> Result<(), AllocError>
    ensures { Puts (spec.declared_spelling (declared_of declared.now)) result out.old out.new }
{
    out.put_word(&declared.name)?;
    out.put_mark(Mark::Colon)?;
    put_sort(out, &declared.sort)
}

/// Puts names with their sorts, with commas between.
fn put_all_declared<'a>(
    out: &mut Pieces<'a>,
    declarations: &'a [Declared<()>],
) -> Result<(), AllocError>
    ensures { Puts (spec.separated_spelling mark.Comma spec.declared_spelling (map declared_of declarations.now))
        result out.old out.new }
{
    let mut first = true;
    for declared in declarations {
        out.put_between(Mark::Comma, first)?;
        put_declared(out, declared)?;
        first = false;
    }
    Ok(())
}

/// Puts an automaton's parameters in round brackets, and nothing if it has none.
fn put_head<'a>(out: &mut Pieces<'a>, parameters: &'a [Declared<()>]) -> Result<(), AllocError>
    ensures { Puts (spec.head_spelling (map declared_of parameters.now)) result out.old out.new }
{
    match parameters {
        [] => Ok(()),
        [_, ..] => {
            out.put_mark(Mark::OpenRound)?;
            put_all_declared(out, parameters)?;
            out.put_mark(Mark::CloseRound)
        }
    }
}

/// Puts a parameter of an entry.
fn put_parameter<'a>(
    out: &mut Pieces<'a>,
    parameter: &'a Parameter<(), (), ()>,
) -> Result<(), AllocError>
    ensures { Puts (spec.parameter_spelling (parameter_of parameter.now)) result out.old out.new }
{
    match parameter {
        Parameter::Const(term) => {
            out.put_mark(Mark::Const)?;
            put_term(out, term)
        }
        Parameter::Declared(declared) => put_declared(out, declared),
    }
}

/// Puts an entry's parameters with commas between.
fn put_all_parameters<'a>(
    out: &mut Pieces<'a>,
    parameters: &'a [Parameter<(), (), ()>],
) -> Result<(), AllocError>
    ensures { Puts (spec.separated_spelling mark.Comma spec.parameter_spelling (map parameter_of parameters.now))
        result out.old out.new }
{
    let mut first = true;
    for parameter in parameters {
        out.put_between(Mark::Comma, first)?;
        put_parameter(out, parameter)?;
        first = false;
    }
    Ok(())
}

/// Puts an entry's parameters in round brackets, and nothing if it has none.
fn put_parameters<'a>(
    out: &mut Pieces<'a>,
    parameters: &'a [Parameter<(), (), ()>],
) -> Result<(), AllocError>
    ensures { Puts (spec.parameters_spelling (map parameter_of parameters.now)) result out.old out.new }
{
    match parameters {
        [] => Ok(()),
        [_, ..] => {
            out.put_mark(Mark::OpenRound)?;
            put_all_parameters(out, parameters)?;
            out.put_mark(Mark::CloseRound)
        }
    }
}

/// Puts an entry of a signature.
fn put_entry<'a>(out: &mut Pieces<'a>, entry: &'a Entry<(), (), ()>) -> Result<(), AllocError>
    ensures { Puts (spec.entry_spelling (entry_of entry.now)) result out.old out.new }
{
    out.put_mark(kind_mark(entry.kind))?;
    out.put_word(&entry.name)?;
    put_parameters(out, &entry.parameters)?;
    put_optional(out, Mark::Where, &entry.condition)
}

/// Puts the entries of a signature.
fn put_entries<'a>(out: &mut Pieces<'a>, entries: &'a [Entry<(), (), ()>]) -> Result<(), AllocError>
    ensures { Puts (spec.joined_spelling spec.entry_spelling (map entry_of entries.now)) result out.old out.new }
{
    for entry in entries {
        put_entry(out, entry)?;
    }
    Ok(())
}

/// Puts a signature, if it has an entry.
fn put_signature<'a>(
    out: &mut Pieces<'a>,
    entries: &'a [Entry<(), (), ()>],
) -> Result<(), AllocError>
    ensures { Puts (spec.signature_spelling (map entry_of entries.now)) result out.old out.new }
{
    match entries {
        [] => Ok(()),
        [_, ..] => {
            out.put_mark(Mark::Signature)?;
            put_entries(out, entries)
        }
    }
}

/// Puts a variable.
fn put_variable<'a>(
    out: &mut Pieces<'a>,
    variable: &'a Variable<(), (), ()>,
) -> Result<(), AllocError>
    ensures { Puts (spec.variable_spelling (variable_of variable.now)) result out.old out.new }
{
    put_declared(out, &variable.declared)?;
    put_optional(out, Mark::Assign, &variable.initial)
}

/// Puts variables with commas between.
fn put_variables<'a>(
    out: &mut Pieces<'a>,
    variables: &'a [Variable<(), (), ()>],
) -> Result<(), AllocError>
    ensures { Puts (spec.separated_spelling mark.Comma spec.variable_spelling (map variable_of variables.now))
        result out.old out.new }
{
    let mut first = true;
    for variable in variables {
        out.put_between(Mark::Comma, first)?;
        put_variable(out, variable)?;
        first = false;
    }
    Ok(())
}

/// Puts the variables of a state or of a schedule block, if there is one.
fn put_states<'a>(
    out: &mut Pieces<'a>,
    variables: &'a [Variable<(), (), ()>],
) -> Result<(), AllocError>
    ensures { Puts (spec.states_spelling (map variable_of variables.now)) result out.old out.new }
{
    match variables {
        [] => Ok(()),
        [_, ..] => {
            out.put_mark(Mark::States)?;
            put_variables(out, variables)
        }
    }
}

/// Puts an effect, if it has a statement.
fn put_effect<'a>(
    out: &mut Pieces<'a>,
    effect: &'a Vec<Statement<(), (), ()>>,
) -> Result<(), AllocError>
    ensures { Puts (spec.effect_part_spelling (map statement_of effect.now.items)) result out.old out.new }
{
    match effect.as_slice() {
        [] => Ok(()),
        [_, ..] => {
            out.put_mark(Mark::Eff)?;
            put_statements(out, effect)
        }
    }
}

/// Puts a transition.
fn put_transition<'a>(
    out: &mut Pieces<'a>,
    transition: &'a Transition<(), (), ()>,
) -> Result<(), AllocError>
    ensures { Puts (spec.transition_spelling (transition_of transition.now)) result out.old out.new }
{
    out.put_mark(kind_mark(transition.kind))?;
    put_call(out, &transition.name, &transition.arguments)?;
    put_optional(out, Mark::Pre, &transition.pre)?;
    put_effect(out, &transition.effect)
}

/// Puts transitions.
fn put_all_transitions<'a>(
    out: &mut Pieces<'a>,
    transitions: &'a [Transition<(), (), ()>],
) -> Result<(), AllocError>
    ensures { Puts (spec.joined_spelling spec.transition_spelling (map transition_of transitions.now))
        result out.old out.new }
{
    for transition in transitions {
        put_transition(out, transition)?;
    }
    Ok(())
}

/// Puts the transitions of an automaton, if it has one.
fn put_transitions<'a>(
    out: &mut Pieces<'a>,
    transitions: &'a [Transition<(), (), ()>],
) -> Result<(), AllocError>
    ensures { Puts (spec.transitions_spelling (map transition_of transitions.now)) result out.old out.new }
{
    match transitions {
        [] => Ok(()),
        [_, ..] => {
            out.put_mark(Mark::Transitions)?;
            put_all_transitions(out, transitions)
        }
    }
}

/// Whether a schedule block has neither a variable nor a statement.
#[tactic(auto, using(crate::proofs::Schedules::none_of_mapped))]
fn is_empty_schedule(schedule: &Schedule<(), (), ()>) -> bool
    ensures { result ≡ spec.is_empty_schedule (schedule_of schedule.now) }
{
    schedule.variables.is_empty() && schedule.statements.is_empty()
}

/// Puts a schedule block, and nothing for the empty block.
fn put_schedule<'a>(
    out: &mut Pieces<'a>,
    schedule: &'a Schedule<(), (), ()>,
) -> Result<(), AllocError>
    ensures { Puts (spec.schedule_spelling (schedule_of schedule.now)) result out.old out.new }
{
    if is_empty_schedule(schedule) {
        return Ok(());
    }
    out.put_mark(Mark::Schedule)?;
    put_states(out, &schedule.variables)?;
    put_block(out, &schedule.statements)
}

/// Puts an automaton.
fn put_automaton<'a>(
    out: &mut Pieces<'a>,
    automaton: &'a Automaton<(), (), ()>,
) -> Result<(), AllocError>
    ensures { Puts (spec.declaration_spelling (plain.automaton (automaton_of automaton.now))) result out.old out.new }
{
    out.put_mark(Mark::Automaton)?;
    out.put_word(&automaton.name)?;
    put_head(out, &automaton.parameters)?;
    put_signature(out, &automaton.signature)?;
    put_states(out, &automaton.states)?;
    put_transitions(out, &automaton.transitions)?;
    put_schedule(out, &automaton.schedule)
}

/// Puts names with commas between.
fn put_words<'a>(out: &mut Pieces<'a>, words: &'a [Word]) -> Result<(), AllocError>
    ensures { Puts (spec.separated_spelling mark.Comma spec.word_spelling words.now) result out.old out.new }
{
    let mut first = true;
    for word in words {
        out.put_between(Mark::Comma, first)?;
        out.put_word(word)?;
        first = false;
    }
    Ok(())
}

/// Puts the constants or the fields of a type.
fn put_form<'a>(out: &mut Pieces<'a>, form: &'a TypeForm<()>) -> Result<(), AllocError>
    ensures { Puts (spec.form_spelling (form_of form.now)) result out.old out.new }
{
    match form {
        TypeForm::Enumeration(words) => {
            out.put_mark(Mark::Enumeration)?;
            out.put_mark(Mark::Of)?;
            put_words(out, words)
        }
        TypeForm::Tuple(fields) => {
            out.put_mark(Mark::Tuple)?;
            out.put_mark(Mark::Of)?;
            put_all_declared(out, fields)
        }
    }
}

/// Puts a type.
fn put_type<'a>(
    out: &mut Pieces<'a>,
    declaration: &'a TypeDeclaration<()>,
) -> Result<(), AllocError>
    ensures { Puts (spec.declaration_spelling (plain.type_named (type_of declaration.now))) result out.old out.new }
{
    out.put_mark(Mark::Type)?;
    out.put_word(&declaration.name)?;
    out.put_mark(Mark::Equal)?;
    put_form(out, &declaration.form)
}

/// Puts a declaration.
fn put_declaration<'a>(
    out: &mut Pieces<'a>,
    declaration: &'a Declaration<(), (), ()>,
) -> Result<(), AllocError>
    ensures { Puts (spec.declaration_spelling (declaration_of declaration.now)) result out.old out.new }
{
    match declaration {
        Declaration::Type(declaration) => put_type(out, declaration),
        Declaration::Automaton(automaton) => put_automaton(out, automaton),
    }
}

/// Puts declarations.
pub(crate) fn put_declarations<'a>(
    out: &mut Pieces<'a>,
    declarations: &'a [Declaration<(), (), ()>],
) -> Result<(), AllocError>
    ensures { Puts (spec.joined_spelling spec.declaration_spelling (map declaration_of declarations.now))
        result out.old out.new }
{
    for declaration in declarations {
        put_declaration(out, declaration)?;
    }
    Ok(())
}
