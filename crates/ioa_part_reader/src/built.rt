//! Targets and statements within the limit of height, from their parts.

ghost use Rattle.std.specs.Prelude.{◌≡◌, ◌≤◌, ◌⊎◌, IfErr, map};
ghost use Rattle.ioa_source.specs.Heights.{height_limit, heights, statements_height, arms_height};
ghost use Rattle.ioa_cursor.specs.declared.cursor.Unread.TheVariants.{Memory};
ghost use Rattle.ioa_terms.specs.PlainTerm as plain;
ghost use Rattle.ioa_terms.specs.PlainTerm.{terms_of, statements_of, arms_of};
ghost use Rattle.ioa_terms.specs.View.{term_of, target_of, statement_of, arm_of};
ghost use Rattle.ioa_part_reader.specs.Built.{built_choice_of, built_firing_of};
ghost use Rattle.ioa_part_reader.specs.Reading as spec;
ghost use Rattle.ioa_values.specs.Outcome.{Matches};

use crate::call::BuiltFiring;
use ioa_cursor::Unread;
use ioa_source::Sort;
use ioa_term_reader::Built;
use ioa_terms::{Arm, Choice, Firing, Statement, Target, Term, Word};
use std::alloc::Global;

/// Terms one after another.
pub(crate) type BuiltTerms = Built<Vec<Term>>;

/// The target of an assignment. Its height is that of the term in it, 0 if there is none.
pub(crate) type BuiltTarget = Built<Target<(), (), ()>>;

/// A statement.
pub(crate) type BuiltStatement = Built<Statement<(), (), ()>>;

/// Statements one after another.
pub(crate) type BuiltStatements = Built<Vec<Statement<(), (), ()>>>;

/// An arm of an `if`.
pub(crate) type BuiltArm = Built<Arm<(), (), ()>>;

/// Arms one after another.
pub(crate) type BuiltArms = Built<Vec<Arm<(), (), ()>>>;

/// A variable as a target.
pub(crate) fn variable(name: Word) -> BuiltTarget
    ensures { target_of result.tree ≡ plain.variable name tt tt }
{
    Built::new(Target::Variable(name, (), ()), 0)
}

/// The value of a map at a key as a target.
pub(crate) fn at_key(name: Word, key: Built<Term>) -> BuiltTarget
    ensures { target_of result.tree ≡ plain.at_key name tt tt (term_of key.tree) }
{
    let height = key.height();
    Built::new(Target::At(name, (), (), key.into_tree()), height)
}

/// A field of a tuple as a target.
pub(crate) fn field(name: Word, field: Word) -> BuiltTarget
    ensures { target_of result.tree ≡ plain.at_field name tt tt field }
{
    Built::new(Target::Field(name, (), (), field), 0)
}

/// An assignment, which is as high as its highest part.
pub(crate) fn assignment(target: BuiltTarget, value: Built<Term>) -> BuiltStatement
    ensures { statement_of result.tree ≡ plain.assign (target_of target.tree) (term_of value.tree) }
{
    let height = target.height().max(value.height());
    Built::new(
        Statement::Assign(target.into_tree(), value.into_tree()),
        height,
    )
}

/// A choice of an effect, whose parts are kept with their heights.
#[derive(Drop)]
pub(crate) struct BuiltChoice {
    pub target: BuiltTarget,
    pub name: Word,
    pub sort: Sort,
    pub condition: Built<Term>,
    pub yields: Built<Term>,
}

/// A choice as a statement, if it is not too high: else the refusal `deep`.
#[tactic(auto, unfolding(crate::specs::Reading::limited_statement))]
pub(crate) fn choosing(
    alloc: Global,
    choice: BuiltChoice,
    deep: Unread,
) -> Result<BuiltStatement, Unread>
    ensures meant { Matches Memory (λ b. statement_of b.tree) result
        (spec.limited_statement (plain.choosing (built_choice_of choice))) }
    ensures told { IfErr result (λ e. (e ≡ Memory) ⊎ (e ≡ deep)) }
{
    let terms_height = choice.condition.height().max(choice.yields.height());
    let height = choice.target.height().max(terms_height) + 1;
    let choice = Choice {
        target: choice.target.into_tree(),
        name: choice.name,
        sort: choice.sort,
        shape: (),
        condition: choice.condition.into_tree(),
        yields: choice.yields.into_tree(),
    };
    let choice = Statement::Choose(Box::new(alloc, choice)?);
    let built = Built::within_limit(choice, height, deep)?;
    Ok(built)
}

/// An `if`, if it is not too high: else the refusal `deep`.
#[tactic(auto, unfolding(crate::specs::Reading::limited_statement))]
pub(crate) fn choice(
    arms: BuiltArms,
    rest: BuiltStatements,
    deep: Unread,
) -> Result<BuiltStatement, Unread>
    ensures meant { Matches Memory (λ b. statement_of b.tree) result
        (spec.limited_statement (plain.branch (arms_of (map arm_of arms.tree.items))
        (statements_of (map statement_of rest.tree.items)))) }
    ensures told { IfErr result (λ e. e ≡ deep) }
{
    let height = highest_arm(&arms).max(highest_statement(&rest)) + 1;
    let choice = Statement::If(arms.into_tree(), rest.into_tree());
    let built = Built::within_limit(choice, height, deep)?;
    Ok(built)
}

/// A `while`, if it is not too high: else the refusal `deep`.
#[tactic(auto, unfolding(crate::specs::Reading::limited_statement))]
pub(crate) fn repetition(
    test: Built<Term>,
    body: BuiltStatements,
    deep: Unread,
) -> Result<BuiltStatement, Unread>
    ensures meant { Matches Memory (λ b. statement_of b.tree) result
        (spec.limited_statement (plain.loop (term_of test.tree)
        (statements_of (map statement_of body.tree.items)))) }
    ensures told { IfErr result (λ e. e ≡ deep) }
{
    let height = test.height().max(highest_statement(&body)) + 1;
    let repetition = Statement::While(test.into_tree(), body.into_tree());
    let built = Built::within_limit(repetition, height, deep)?;
    Ok(built)
}

/// A `fire`, if it is not too high: else the refusal `deep`.
#[tactic(auto, unfolding(crate::specs::Reading::limited_statement))]
pub(crate) fn fire(fired: BuiltFiring, deep: Unread) -> Result<BuiltStatement, Unread>
    ensures meant { Matches Memory (λ b. statement_of b.tree) result
        (spec.limited_statement (plain.fire (built_firing_of fired))) }
    ensures told { IfErr result (λ e. e ≡ deep) }
{
    let height = highest_term(&fired.call.arguments).max(1);
    let fire = Statement::Fire(Firing {
        kind: fired.kind,
        action: fired.call.name,
        rule: (),
        arguments: fired.call.arguments.into_tree(),
    });
    let built = Built::within_limit(fire, height, deep)?;
    Ok(built)
}

/// `t then s`.
pub(crate) fn arm(test: Built<Term>, body: BuiltStatements) -> BuiltArm
    ensures { arm_of result.tree ≡ (term_of test.tree, statements_of (map statement_of body.tree.items)) }
{
    let height = test.height().max(highest_statement(&body));
    Built::new(
        Arm {
            test: test.into_tree(),
            body: body.into_tree(),
        },
        height,
    )
}

/// The height of the highest of several statements, 0 if there is none.
fn highest_statement(statements: &BuiltStatements) -> usize
    ensures exact { result ≡ statements_height (statements_of (map statement_of statements.now.tree.items)) }
    ensures low { result ≤ height_limit }
{
    statements.height()
}

/// The height of the highest of several terms, 0 if there is none.
fn highest_term(terms: &BuiltTerms) -> usize
    ensures exact { result ≡ heights (terms_of (map term_of terms.now.tree.items)) }
    ensures low { result ≤ height_limit }
{
    terms.height()
}

/// The height of the highest of several arms, 0 if there is none.
fn highest_arm(arms: &BuiltArms) -> usize
    ensures exact { result ≡ arms_height (arms_of (map arm_of arms.now.tree.items)) }
    ensures low { result ≤ height_limit }
{
    arms.height()
}
