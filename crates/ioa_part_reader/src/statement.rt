//! Targets and statements.

ghost use Rattle.std.specs.Prelude.{◌≡◌, map};
ghost use Rattle.ioa_cursor.specs.Outcome.{Reads};
ghost use Rattle.ioa_cursor.specs.Reading as cursor;
ghost use Rattle.ioa_terms.specs.SortView.{sort_of};
ghost use Rattle.ioa_terms.specs.View.{term_of, target_of, statement_of, arm_of};
ghost use Rattle.ioa_tokens.specs.declared.mark.Mark.TheVariants as mark;
ghost use Rattle.ioa_part_reader.specs.Reading as spec;
ghost use Rattle.ioa_part_reader.specs.declared.statement.Context.TheVariants as context;

use crate::built::{
    self, BuiltArm, BuiltArms, BuiltChoice, BuiltStatement, BuiltStatements, BuiltTarget,
};
use crate::call::{INNER_LIMIT, firing};
use crate::sort::sort;
use ioa_cursor::{Tokens, Unread};
use ioa_source::{HEIGHT_LIMIT, Sort};
use ioa_term_reader::{BRACKET_LIMIT, Built, term};
use ioa_terms::{Statement, Term, Word};
use ioa_tokens::Mark;
use std::alloc::Global;

/// Where statements are written. Only a schedule block has `while` and `fire`. Source: profile.
#[derive(Clone, Copy)]
pub enum Context {
    /// In the effect of a transition.
    Effect,
    /// In a schedule block.
    Block,
}

/// Term `]`, after the word `name` and the bracket that opens
#[tactic(auto, unfolding(crate::specs::Reading::key_target, crate::specs::bind))]
fn key_target(alloc: Global, tokens: &mut Tokens<'_>, name: Word) -> Result<BuiltTarget, Unread>
    ensures { Reads (λ b. target_of b.tree) (spec.key_target name tokens.old) result tokens.new }
{
    let key = term(alloc, tokens, INNER_LIMIT)?;
    tokens.expect(Mark::CloseSquare)?;
    Ok(built::at_key(name, key))
}

/// Word, Word `[` Term `]`, or Word `.` Word
#[tactic(auto, unfolding(crate::specs::Reading::target, crate::specs::bind, crate::specs::choose))]
fn target(alloc: Global, tokens: &mut Tokens<'_>) -> Result<BuiltTarget, Unread>
    ensures { Reads (λ b. target_of b.tree) (spec.target tokens.old) result tokens.new }
{
    let name = tokens.word(alloc)?;
    if tokens.skip(Mark::OpenSquare) {
        return key_target(alloc, tokens, name);
    }
    if !tokens.skip(Mark::Dot) {
        return Ok(built::variable(name));
    }
    let field = tokens.word(alloc)?;
    Ok(built::field(name, field))
}

/// Term, after `target` and `:=`
#[tactic(auto, unfolding(crate::specs::Reading::assigned_term, crate::specs::bind))]
fn assigned_term(
    alloc: Global,
    tokens: &mut Tokens<'_>,
    target: BuiltTarget,
) -> Result<BuiltStatement, Unread>
    ensures { Reads (λ b. statement_of b.tree) (spec.assigned_term (target_of target.tree) tokens.old)
        result tokens.new }
{
    let value = term(alloc, tokens, BRACKET_LIMIT)?;
    Ok(built::assignment(target, value))
}

/// Target `:=` Term
#[tactic(auto, unfolding(crate::specs::Reading::assignment, crate::specs::bind))]
fn assignment(alloc: Global, tokens: &mut Tokens<'_>) -> Result<BuiltStatement, Unread>
    ensures { Reads (λ b. statement_of b.tree) (spec.assignment tokens.old) result tokens.new }
{
    let target = target(alloc, tokens)?;
    tokens.expect(Mark::Assign)?;
    assigned_term(alloc, tokens, target)
}

/// Word `:` Sort, after `choose`
#[tactic(auto, unfolding(crate::specs::Reading::chosen_name, crate::specs::bind))]
fn chosen_name(alloc: Global, tokens: &mut Tokens<'_>) -> Result<(Word, Sort), Unread>
    ensures { Reads (λ p. (p.0, sort_of p.1)) (spec.chosen_name tokens.old) result tokens.new }
{
    let name = tokens.word(alloc)?;
    tokens.expect(Mark::Colon)?;
    let sort = sort(alloc, tokens, BRACKET_LIMIT)?;
    Ok((name, sort))
}

/// `where` Term `yield` Term
#[tactic(auto, unfolding(crate::specs::Reading::chosen_terms, crate::specs::bind))]
fn chosen_terms(
    alloc: Global,
    tokens: &mut Tokens<'_>,
) -> Result<(Built<Term>, Built<Term>), Unread>
    ensures { Reads (λ p. (term_of p.0.tree, term_of p.1.tree)) (spec.chosen_terms tokens.old) result tokens.new }
{
    tokens.expect(Mark::Where)?;
    let condition = term(alloc, tokens, BRACKET_LIMIT)?;
    tokens.expect(Mark::Yield)?;
    let yields = term(alloc, tokens, BRACKET_LIMIT)?;
    Ok((condition, yields))
}

/// Word `:` Sort `where` Term `yield` Term, after `target`, `:=` and `choose`. `deep` is the refusal of a
/// tree that is too high.
#[tactic(auto, unfolding(crate::specs::Reading::choosing, crate::specs::bind))]
fn choosing(
    alloc: Global,
    tokens: &mut Tokens<'_>,
    target: BuiltTarget,
    deep: Unread,
) -> Result<BuiltStatement, Unread>
    ensures { Reads (λ b. statement_of b.tree) (spec.choosing (target_of target.tree) tokens.old)
        result tokens.new }
{
    let (name, sort) = chosen_name(alloc, tokens)?;
    let (condition, yields) = chosen_terms(alloc, tokens)?;
    let choice = BuiltChoice {
        target,
        name,
        sort,
        condition,
        yields,
    };
    built::choosing(alloc, choice, deep)
}

/// Target `:=` Term, or Target `:=` `choose` Word `:` Sort `where` Term `yield` Term. `deep` is the refusal
/// of a tree that is too high.
#[tactic(auto, unfolding(crate::specs::Reading::effect_statement, crate::specs::bind, crate::specs::choose))]
fn effect_statement(
    alloc: Global,
    tokens: &mut Tokens<'_>,
    deep: Unread,
) -> Result<BuiltStatement, Unread>
    ensures { Reads (λ b. statement_of b.tree) (spec.effect_statement tokens.old) result tokens.new }
{
    let target = target(alloc, tokens)?;
    tokens.expect(Mark::Assign)?;
    if tokens.skip(Mark::Choose) {
        choosing(alloc, tokens, target, deep)
    } else {
        assigned_term(alloc, tokens, target)
    }
}

/// Whether a statement begins with one of the words that only a schedule block has.
#[tactic(auto, unfolding(crate::specs::Reading::begins_in_block))]
fn begins_in_block(tokens: &Tokens<'_>) -> bool
    ensures { result ≡ spec.begins_in_block tokens.now }
{
    tokens.at(Mark::While) || tokens.at(Mark::Fire)
}

/// Whether a statement begins.
#[tactic(auto, unfolding(crate::specs::Reading::begins_statement))]
fn begins_statement(tokens: &Tokens<'_>, context: Context) -> bool
    ensures { result ≡ spec.begins_statement context tokens.now }
{
    match context {
        Context::Effect => tokens.at_word() || tokens.at(Mark::If),
        Context::Block => tokens.at_word() || (tokens.at(Mark::If) || begins_in_block(tokens)),
    }
}

/// Whether statements go on after a semicolon. Goes past the semicolon.
#[tactic(auto, unfolding(ioa_cursor::specs::Reading::resumes_with))]
fn resumes_with_statement(tokens: &mut Tokens<'_>, context: Context) -> bool
    ensures { (result, tokens.new) ≡ cursor.resumes_with mark.Semicolon (spec.begins_statement context) tokens.old }
{
    if tokens.skip(Mark::Semicolon) {
        begins_statement(tokens, context)
    } else {
        false
    }
}

/// Statement {`;` Statement} [`;`]. The statements in a statement are read at one depth less.
#[cycle(statements)]
#[tactic(auto, unfolding(crate::specs::Reading::statements_in, crate::specs::bind))]
fn statements_in(
    alloc: Global,
    tokens: &mut Tokens<'_>,
    context: Context,
    depth: usize,
) -> Result<BuiltStatements, Unread>
    ensures { Reads (λ b. map statement_of b.tree.items) (spec.statements_in context depth tokens.old)
        result tokens.new }
{
    if depth == 0 {
        let begins = begins_statement(tokens, context);
        return Err(tokens.refusal_at_depth(begins));
    }
    let first = one_statement(alloc, tokens, context, depth - 1)?;
    let mut statements = BuiltStatements::none(alloc).with_next(first)?;
    for _turn in 0..tokens.len() {
        if !resumes_with_statement(tokens, context) {
            return Ok(statements);
        }
        let next = one_statement(alloc, tokens, context, depth - 1)?;
        statements = statements.with_next(next)?;
    }
    Ok(statements)
}

/// A statement, which begins with `if` or is another
#[cycle(statements)]
#[tactic(auto, unfolding(crate::specs::Reading::one_statement, crate::specs::choose))]
fn one_statement(
    alloc: Global,
    tokens: &mut Tokens<'_>,
    context: Context,
    depth: usize,
) -> Result<BuiltStatement, Unread>
    ensures { Reads (λ b. statement_of b.tree)
        (spec.one_statement (spec.statements_in context depth) context tokens.old) result tokens.new }
{
    let deep = tokens.too_deep();
    if tokens.skip(Mark::If) {
        choice(alloc, tokens, context, depth, deep)
    } else {
        other_statement(alloc, tokens, context, depth, deep)
    }
}

/// A statement other than an `if`
#[cycle(statements)]
#[tactic(auto, unfolding(crate::specs::Reading::other_statement))]
fn other_statement(
    alloc: Global,
    tokens: &mut Tokens<'_>,
    context: Context,
    depth: usize,
    deep: Unread,
) -> Result<BuiltStatement, Unread>
    ensures { Reads (λ b. statement_of b.tree)
        (spec.other_statement (spec.statements_in context depth) context tokens.old) result tokens.new }
{
    match context {
        Context::Effect => effect_statement(alloc, tokens, deep),
        Context::Block => block_statement(alloc, tokens, depth, deep),
    }
}

/// `while` Term `do` Statements `od`, `fire` [Kind] Call, or Target `:=` Term
#[cycle(statements)]
#[tactic(auto, unfolding(crate::specs::Reading::block_statement, crate::specs::choose))]
fn block_statement(
    alloc: Global,
    tokens: &mut Tokens<'_>,
    depth: usize,
    deep: Unread,
) -> Result<BuiltStatement, Unread>
    ensures { Reads (λ b. statement_of b.tree)
        (spec.block_statement (spec.statements_in context.Block depth) tokens.old) result tokens.new }
{
    if tokens.skip(Mark::While) {
        return repetition(alloc, tokens, depth, deep);
    }
    if tokens.skip(Mark::Fire) {
        return fire_statement(alloc, tokens, deep);
    }
    assignment(alloc, tokens)
}

/// `while` Term `do` Statements `od`, after the first word. `deep` is the refusal of a tree that is too
/// high.
#[cycle(statements)]
#[tactic(auto, unfolding(crate::specs::Reading::repetition, crate::specs::bind))]
fn repetition(
    alloc: Global,
    tokens: &mut Tokens<'_>,
    depth: usize,
    deep: Unread,
) -> Result<BuiltStatement, Unread>
    ensures { Reads (λ b. statement_of b.tree)
        (spec.repetition (spec.statements_in context.Block depth) tokens.old) result tokens.new }
{
    let test = term(alloc, tokens, BRACKET_LIMIT)?;
    tokens.expect(Mark::Do)?;
    let body = statements_in(alloc, tokens, Context::Block, depth)?;
    tokens.expect(Mark::Od)?;
    built::repetition(test, body, deep)
}

/// `fire` [Kind] Call, after the first word. `deep` is the refusal of a tree that is too high.
#[tactic(auto, unfolding(crate::specs::Reading::fire_statement, crate::specs::bind))]
fn fire_statement(
    alloc: Global,
    tokens: &mut Tokens<'_>,
    deep: Unread,
) -> Result<BuiltStatement, Unread>
    ensures { Reads (λ b. statement_of b.tree) (spec.fire_statement tokens.old) result tokens.new }
{
    let fired = firing(alloc, tokens)?;
    built::fire(fired, deep)
}

/// `if` Arms [`else` Statements] `fi`, after the first word. `deep` is the refusal of a tree that is too
/// high.
#[cycle(statements)]
#[tactic(auto, unfolding(crate::specs::Reading::choice, crate::specs::bind))]
fn choice(
    alloc: Global,
    tokens: &mut Tokens<'_>,
    context: Context,
    depth: usize,
    deep: Unread,
) -> Result<BuiltStatement, Unread>
    ensures { Reads (λ b. statement_of b.tree)
        (spec.choice (spec.statements_in context depth) tokens.old) result tokens.new }
{
    let arms = all_arms(alloc, tokens, context, depth)?;
    let rest = rest_of(alloc, tokens, context, depth)?;
    built::choice(arms, rest, deep)
}

/// Term `then` Statements {`elseif` Term `then` Statements}
#[cycle(statements)]
#[tactic(auto, unfolding(crate::specs::Reading::all_arms, crate::specs::bind))]
fn all_arms(
    alloc: Global,
    tokens: &mut Tokens<'_>,
    context: Context,
    depth: usize,
) -> Result<BuiltArms, Unread>
    ensures { Reads (λ b. map arm_of b.tree.items)
        (spec.all_arms (spec.statements_in context depth) tokens.old) result tokens.new }
{
    let first = one_arm(alloc, tokens, context, depth)?;
    let mut arms = BuiltArms::none(alloc).with_next(first)?;
    for _turn in 0..tokens.len() {
        if !tokens.skip(Mark::ElseIf) {
            return Ok(arms);
        }
        let next = one_arm(alloc, tokens, context, depth)?;
        arms = arms.with_next(next)?;
    }
    Ok(arms)
}

/// Term `then` Statements
#[cycle(statements)]
#[tactic(auto, unfolding(crate::specs::Reading::one_arm, crate::specs::bind))]
fn one_arm(
    alloc: Global,
    tokens: &mut Tokens<'_>,
    context: Context,
    depth: usize,
) -> Result<BuiltArm, Unread>
    ensures { Reads (λ b. arm_of b.tree) (spec.one_arm (spec.statements_in context depth) tokens.old)
        result tokens.new }
{
    let test = term(alloc, tokens, BRACKET_LIMIT)?;
    tokens.expect(Mark::Then)?;
    let body = statements_in(alloc, tokens, context, depth)?;
    Ok(built::arm(test, body))
}

/// [`else` Statements] `fi`
#[cycle(statements)]
#[tactic(auto, unfolding(crate::specs::Reading::rest_of, crate::specs::bind, crate::specs::choose))]
fn rest_of(
    alloc: Global,
    tokens: &mut Tokens<'_>,
    context: Context,
    depth: usize,
) -> Result<BuiltStatements, Unread>
    ensures { Reads (λ b. map statement_of b.tree.items)
        (spec.rest_of (spec.statements_in context depth) tokens.old) result tokens.new }
{
    if !tokens.skip(Mark::Else) {
        tokens.expect(Mark::Fi)?;
        return Ok(BuiltStatements::none(alloc));
    }
    let rest = statements_in(alloc, tokens, context, depth)?;
    tokens.expect(Mark::Fi)?;
    Ok(rest)
}

/// The statements of an effect or of a schedule block.
#[tactic(auto, unfolding(crate::specs::Reading::statements))]
pub(crate) fn statements(
    alloc: Global,
    tokens: &mut Tokens<'_>,
    context: Context,
) -> Result<Vec<Statement<(), (), ()>>, Unread>
    ensures { Reads (λ v. map statement_of v.items) (spec.statements context tokens.old) result tokens.new }
{
    let statements = statements_in(alloc, tokens, context, HEIGHT_LIMIT)?;
    Ok(statements.into_tree())
}

/// [`eff` Statements]
#[tactic(auto, unfolding(crate::specs::Reading::effect, crate::specs::choose))]
pub(crate) fn effect(
    alloc: Global,
    tokens: &mut Tokens<'_>,
) -> Result<Vec<Statement<(), (), ()>>, Unread>
    ensures { Reads (λ v. map statement_of v.items) (spec.effect tokens.old) result tokens.new }
{
    if !tokens.skip(Mark::Eff) {
        return Ok(Vec::new(alloc));
    }
    statements(alloc, tokens, Context::Effect)
}
