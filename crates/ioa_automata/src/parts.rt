//! The declarations of an automaton, with the slot of each name and the shape of each sort and display.

ghost use Rattle.std.specs.Prelude.{◌≡◌, ◌++◌, [], ◌∷◌, Ok, OnOk, map, take};
ghost use Rattle.std.specs.Option.{option_map};
ghost use Rattle.ioa_operators.specs.Shapes.{truths};
ghost use Rattle.ioa_values.specs.Outcome.{Answers, and_then};
ghost use Rattle.ioa_terms.specs.PlainTerm.{statements_of};
ghost use Rattle.ioa_terms.specs.Sorted.{shape_in_terms};
ghost use Rattle.ioa_terms.specs.View.{statement_of, term_of};
ghost use Rattle.ioa_source.specs.PlainText.{const, named};
ghost use Rattle.ioa_source.specs.TextView.{declared_of, parameter_of, entry_of, transition_of, variable_of};
ghost use Rattle.ioa_typed.specs.PartsView.{typed_of};
ghost use Rattle.ioa_sorts.specs.Sorting as sorts;
ghost use Rattle.ioa_sorts.specs.StatementSites.{effect_site};
ghost use Rattle.ioa_sorts.specs.Statements.{all_ok, statement_sortings};
ghost use Rattle.ioa_automata.specs.Parts as spec;
ghost use Rattle.ioa_automata.specs.SortedView.{sorted_parameter_of, sorted_parameters_of, sorted_entry_of};

use ioa_names::{RuleTable, View};
use ioa_refusals::Refusal;
use ioa_sort_rules::shape_in_terms;
use ioa_sorts::{StatementSite, fit, infer, sort_statements};
use ioa_source::{Declared, Entry, Parameter, Transition, Variable};
use ioa_terms::{Callee, Checked, Kind, Shape, ShapeForm, Statement, Term};
use ioa_typed::Typed;
use ioa_types::Types;
use std::alloc::{AllocError, Global};

/// A parameter of an entry, and the shape of the arguments that it takes.
#[derive(Drop)]
pub(crate) struct SortedParameter {
    pub parameter: Parameter<usize, Callee, Shape>,
    pub shape: Shape,
}

/// The parameters of an entry, and the shapes of its arguments.
#[derive(Drop)]
pub(crate) struct SortedParameters {
    pub parameters: Vec<Parameter<usize, Callee, Shape>>,
    pub shapes: Vec<Shape>,
}

/// An entry, and the shapes of its arguments.
#[derive(Drop)]
pub(crate) struct SortedEntry {
    pub entry: Entry<usize, Callee, Shape>,
    pub shapes: Vec<Shape>,
}

/// A declared name with the shape of its sort.
#[tactic(auto, unfolding(crate::specs::Parts::declared_at))]
fn sort_declared(
    alloc: Global,
    types: &Types,
    declared: &Declared<()>,
) -> Result<Declared<Shape>, Refusal>
    ensures { Answers Refusal.Memory declared_of result
        (spec.declared_at types.now (declared_of declared.now)) }
{
    let shape = Box::new(alloc, types.shape_of(alloc, &declared.sort)?.into_shape())?;
    let name = declared.name.try_copy(alloc)?;
    let sort = declared.sort.try_copy(alloc)?;
    Ok(Declared {
        name,
        sort,
        shape: Box::into_inner(shape),
    })
}

/// Declared names with the shapes of their sorts.
pub(crate) fn sort_all_declared(
    alloc: Global,
    types: &Types,
    all: &Vec<Declared<()>>,
) -> Result<Vec<Declared<Shape>>, Refusal>
    ensures { Answers Refusal.Memory (λ ds. map declared_of ds.items) result
        (spec.all_declared_at types.now (map declared_of all.now.items)) }
{
    let mut sorted = Vec::new(alloc);
    for declared in all {
        let found = sort_declared(alloc, types, declared)?;
        sorted.push(found)?;
    }
    Ok(sorted)
}

/// A term that has a shape of its own. `EmptyOfWhat` (32) if it is a display.
fn infer_own(alloc: Global, view: &View, term: &Term) -> Result<Typed, Refusal>
    ensures { Answers Refusal.Memory typed_of result (spec.infer_own view.now (term_of term.now)) }
{
    own_or(infer(alloc, view, term)?)
}

/// What a term has of its own. `EmptyOfWhat` (32) if that is nothing.
#[tactic(auto, unfolding(crate::specs::Parts::own_or))]
fn own_or(found: Option<Typed>) -> Result<Typed, Refusal>
    ensures { Answers Refusal.Memory typed_of result (spec.own_or (option_map typed_of found)) }
{
    match found {
        None => Err(Refusal::EmptyOfWhat),
        Some(typed) => Ok(typed),
    }
}

/// A term that has a shape of its own, without the shape. `EmptyOfWhat` (32) if it is a display.
fn infer_tree(alloc: Global, view: &View, term: &Term) -> Result<Checked, Refusal>
    ensures { Answers Refusal.Memory term_of result (spec.own_term view.now (term_of term.now)) }
{
    let Typed { tree, shape } = infer_own(alloc, view, term)?;
    drop(shape);
    Ok(tree)
}

/// Terms that have shapes of their own.
fn infer_terms(alloc: Global, view: &View, terms: &Vec<Term>) -> Result<Vec<Checked>, Refusal>
    ensures { Answers Refusal.Memory (λ ts. map term_of ts.items) result
        (spec.own_terms view.now (map term_of terms.now.items)) }
{
    let mut sorted = Vec::new(alloc);
    for term in terms {
        let found = infer_tree(alloc, view, term)?;
        sorted.push(found)?;
    }
    Ok(sorted)
}

/// A condition, if one is written.
#[tactic(auto, unfolding(crate::specs::Parts::condition_at))]
fn sort_condition(
    alloc: Global,
    view: &View,
    condition: &Option<Term>,
) -> Result<Option<Checked>, Refusal>
    ensures { Answers Refusal.Memory (λ c. option_map term_of c) result
        (spec.condition_at view.now (option_map term_of condition.now)) }
{
    match condition {
        None => Ok(None),
        Some(term) => Ok(Some(fit_truths(alloc, view, term)?)),
    }
}

/// A term that is a truth value.
fn fit_truths(alloc: Global, view: &View, term: &Term) -> Result<Checked, Refusal>
    ensures { Answers Refusal.Memory term_of result
        (sorts.fit (sorts.sorting view.now (term_of term.now)) truths) }
{
    let truths = Shape::of(ShapeForm::Truths);
    let found = fit(alloc, view, term, &truths);
    drop(truths);
    found
}

/// The initial term of a state variable of a shape. `NoInitial` (23) if there is none.
#[tactic(auto, unfolding(crate::specs::Parts::initial_at))]
fn sort_initial(
    alloc: Global,
    view: &View,
    shape: &Shape,
    initial: &Option<Term>,
) -> Result<Checked, Refusal>
    ensures { Answers Refusal.Memory term_of result
        (spec.initial_at view.now shape.now (option_map term_of initial.now)) }
{
    match initial {
        None => Err(Refusal::NoInitial),
        Some(term) => fit_declared(alloc, view, term, shape),
    }
}

/// A term that has the shape of a name that is declared to have this one.
fn fit_declared(alloc: Global, view: &View, term: &Term, shape: &Shape) -> Result<Checked, Refusal>
    ensures { Answers Refusal.Memory term_of result
        (sorts.fit (sorts.sorting view.now (term_of term.now)) (shape_in_terms shape.now)) }
{
    let want = shape_in_terms(alloc, shape)?;
    let found = fit(alloc, view, term, &want);
    drop(want);
    found
}

/// A state variable with its initial term.
#[tactic(auto, unfolding(crate::specs::Parts::variable_at))]
fn sort_variable(
    alloc: Global,
    types: &Types,
    view: &View,
    variable: &Variable<(), (), ()>,
) -> Result<Variable<usize, Callee, Shape>, Refusal>
    ensures { Answers Refusal.Memory variable_of result
        (spec.variable_at types.now view.now (variable_of variable.now)) }
{
    let declared = Box::new(alloc, sort_declared(alloc, types, &variable.declared)?)?;
    let initial = sort_initial(alloc, view, &declared.shape, &variable.initial)?;
    Ok(Variable {
        declared: Box::into_inner(declared),
        initial: Some(initial),
    })
}

/// State variables with their initial terms.
pub(crate) fn sort_variables(
    alloc: Global,
    types: &Types,
    view: &View,
    variables: &Vec<Variable<(), (), ()>>,
) -> Result<Vec<Variable<usize, Callee, Shape>>, Refusal>
    ensures { Answers Refusal.Memory (λ vs. map variable_of vs.items) result
        (spec.variables_at types.now view.now (map variable_of variables.now.items)) }
{
    let mut sorted = Vec::new(alloc);
    for variable in variables {
        let found = sort_variable(alloc, types, view, variable)?;
        sorted.push(found)?;
    }
    Ok(sorted)
}

/// A parameter of an entry. `EmptyOfWhat` (32) if it is a constant that is a display.
#[tactic(auto, unfolding(crate::specs::Parts::parameter_at))]
fn sort_parameter(
    alloc: Global,
    types: &Types,
    view: &View,
    parameter: &Parameter<(), (), ()>,
) -> Result<SortedParameter, Refusal>
    ensures { Answers Refusal.Memory sorted_parameter_of result
        (spec.parameter_at types.now view.now (parameter_of parameter.now)) }
{
    match parameter {
        Parameter::Const(term) => sort_constant(alloc, view, term),
        Parameter::Declared(declared) => sort_own(alloc, types, declared),
    }
}

/// A parameter that is a constant. `EmptyOfWhat` (32) if it is a display.
fn sort_constant(alloc: Global, view: &View, term: &Term) -> Result<SortedParameter, Refusal>
    ensures { Answers Refusal.Memory sorted_parameter_of result (and_then
        (spec.infer_own view.now (term_of term.now)) (λ u. Ok (spec.sorted_parameter (const u.tree) u.shape))) }
{
    let typed = infer_own(alloc, view, term)?;
    Ok(SortedParameter {
        parameter: Parameter::Const(typed.tree),
        shape: typed.shape,
    })
}

/// A parameter that is a name of the entry's own.
fn sort_own(
    alloc: Global,
    types: &Types,
    declared: &Declared<()>,
) -> Result<SortedParameter, Refusal>
    ensures { Answers Refusal.Memory sorted_parameter_of result (and_then
        (spec.declared_at types.now (declared_of declared.now)) (λ d. Ok (spec.sorted_parameter (named d) d.shape))) }
{
    let declared = Box::new(alloc, sort_declared(alloc, types, declared)?)?;
    let shape = declared.shape.try_copy(alloc)?;
    Ok(SortedParameter {
        parameter: Parameter::Declared(Box::into_inner(declared)),
        shape,
    })
}

/// Parameters with one more behind them.
fn push_parameter(sorted: &mut SortedParameters, found: SortedParameter) -> Result<(), AllocError>
    ensures parameters { OnOk result
        (sorted.new.parameters.items ≡ sorted.old.parameters.items ++ found.parameter ∷ []) }
    ensures shapes { OnOk result (sorted.new.shapes.items ≡ sorted.old.shapes.items ++ found.shape ∷ []) }
{
    sorted.parameters.push(found.parameter)?;
    sorted.shapes.push(found.shape)?;
    Ok(())
}

/// The parameters of an entry, and the shapes of its arguments.
pub(crate) fn sort_parameters(
    alloc: Global,
    types: &Types,
    view: &View,
    parameters: &Vec<Parameter<(), (), ()>>,
) -> Result<Box<SortedParameters>, Refusal>
    ensures { Answers Refusal.Memory (λ ps. sorted_parameters_of ps.value) result
        (spec.parameters_at types.now view.now (map parameter_of parameters.now.items)) }
{
    let none = SortedParameters {
        parameters: Vec::new(alloc),
        shapes: Vec::new(alloc),
    };
    let mut sorted = Box::new(alloc, none)?;
    for parameter in parameters {
        let found = sort_parameter(alloc, types, view, parameter)?;
        push_parameter(&mut sorted, found)?;
    }
    Ok(sorted)
}

/// The condition of an entry. `InputWhere` (33) if an input has one.
#[tactic(auto, unfolding(crate::specs::Parts::where_at))]
fn sort_where(
    alloc: Global,
    view: &View,
    kind: Kind,
    condition: &Option<Term>,
) -> Result<Option<Checked>, Refusal>
    ensures { Answers Refusal.Memory (λ c. option_map term_of c) result
        (spec.where_at view.now kind (option_map term_of condition.now)) }
{
    match condition {
        None => Ok(None),
        Some(_) => match kind {
            Kind::Input => Err(Refusal::InputWhere),
            Kind::Output => sort_condition(alloc, view, condition),
            Kind::Internal => sort_condition(alloc, view, condition),
        },
    }
}

/// An entry of these parameters, whose condition reads these names.
#[tactic(auto, unfolding(crate::specs::Parts::entry_at))]
pub(crate) fn sort_entry(
    alloc: Global,
    view: &View,
    entry: &Entry<(), (), ()>,
    sorted: Box<SortedParameters>,
) -> Result<Box<SortedEntry>, Refusal>
    ensures { Answers Refusal.Memory (λ e. sorted_entry_of e.value) result
        (spec.entry_at view.now (entry_of entry.now) (sorted_parameters_of sorted.value)) }
{
    let name = entry.name.try_copy(alloc)?;
    let condition = sort_where(alloc, view, entry.kind, &entry.condition)?;
    let SortedParameters { parameters, shapes } = Box::into_inner(sorted);
    let entry = Entry {
        kind: entry.kind,
        name,
        parameters,
        condition,
    };
    Ok(Box::new(alloc, SortedEntry { entry, shapes })?)
}

/// The statements of an effect, which may assign the first `variables` names in view, and choose values of these types.
fn sort_effect(
    alloc: Global,
    types: &Types,
    view: &View,
    variables: usize,
    effect: &Vec<Statement<(), (), ()>>,
) -> Result<Vec<Statement<usize, Callee, Shape>>, Refusal>
    ensures { Answers Refusal.Memory (λ ss. map statement_of ss.items) result
        (all_ok (statement_sortings (effect_site types.now (take variables view.now) view.now)
        (statements_of (map statement_of effect.now.items)))) }
{
    let none = RuleTable::none(alloc);
    let site = StatementSite::effect(types, view, variables, &none);
    sort_statements(alloc, &site, effect)
}

/// A transition, of whose names in view the first `variables` may be assigned, and whose effect may choose values of
/// these types.
#[tactic(auto, unfolding(crate::specs::Parts::transition_at))]
pub(crate) fn sort_transition(
    alloc: Global,
    types: &Types,
    view: &View,
    variables: usize,
    transition: &Transition<(), (), ()>,
) -> Result<Transition<usize, Callee, Shape>, Refusal>
    ensures { Answers Refusal.Memory transition_of result
        (spec.transition_at types.now view.now variables (transition_of transition.now)) }
{
    let arguments = infer_terms(alloc, view, &transition.arguments)?;
    let pre = Box::new(alloc, sort_condition(alloc, view, &transition.pre)?)?;
    let effect = sort_effect(alloc, types, view, variables, &transition.effect)?;
    let name = transition.name.try_copy(alloc)?;
    Ok(Transition {
        kind: transition.kind,
        name,
        arguments,
        pre: Box::into_inner(pre),
        effect,
    })
}
