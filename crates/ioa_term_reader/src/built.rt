//! Trees within the limit of height, each with its height.

ghost use Rattle.std.specs.Prelude.{◌≡◌, ◌≤◌, ◌<◌, ◌⊎◌, [], ◌∷◌, ◌++◌, Some, IfOk, IfErr, map};
ghost use Rattle.ioa_cursor.specs.declared.cursor.Unread.TheVariants.{Memory};
ghost use Rattle.ioa_source.specs.Heights as heights;
ghost use Rattle.ioa_source.specs.Heights.{height_limit};
ghost use Rattle.ioa_terms.specs.PlainTerm as plain;
ghost use Rattle.ioa_terms.specs.PlainTerm.{terms_of};
ghost use Rattle.ioa_terms.specs.View.{term_of};
ghost use Rattle.ioa_term_reader.specs.Grammar as grammar;
ghost use Rattle.ioa_term_reader.specs.Reading as spec;
ghost use Rattle.ioa_values.specs.Outcome.{Matches};

use ioa_cursor::Unread;
use ioa_source::{HEIGHT_LIMIT, HasHeight};
use ioa_terms::{BinaryOperator, DisplayForm, Name, Term, Tree, UnaryOperator};
use ioa_values::Word;
use std::alloc::Global;

/// The word that names the queue of a channel. Source: profile.
pub const QUEUE: &str = "queue";

/// A tree, or several, at most 64 high, with the height: a leaf is 1 high, all else one higher than its
/// highest part, and no tree is 0 high. Source: profile.
#[derive(Drop)]
pub struct Built<T: HasHeight> {
    tree: T,
    height: usize,
    ghost low: { (height ≡ T.height tree) × (height ≤ height_limit) },
}

impl<T: HasHeight> Built<T> {
    /// A tree whose height is within the limit.
    pub fn new(tree: T, height: usize) -> Self
        requires same { height ≡ T.height tree }
        requires low { height ≤ height_limit }
        ensures { result.tree ≡ tree }
    {
        Built { tree, height }
    }

    /// A tree, if its height is within the limit: else the refusal `deep`.
    pub fn within_limit(tree: T, height: usize, deep: Unread) -> Result<Self, Unread>
    where
        T: Drop,
        requires { height ≡ T.height tree }
        ensures made { IfOk result (λ b. (b.tree ≡ tree) × (T.height tree ≤ height_limit)) }
        ensures told { IfErr result (λ e. (e ≡ deep) × (height_limit < T.height tree)) }
    {
        if height <= HEIGHT_LIMIT {
            Ok(Built { tree, height })
        } else {
            Err(deep)
        }
    }

    /// The tree.
    pub fn tree(&self) -> &T
        ensures same { result.now ≡ self.now.tree }
        ensures low { T.height result.now ≤ height_limit }
    {
        &self.tree
    }

    /// The tree itself.
    pub fn into_tree(self) -> T
        ensures same { result ≡ self.tree }
        ensures low { T.height result ≤ height_limit }
    {
        self.tree
    }

    /// How high the tree is.
    pub fn height(&self) -> usize
        ensures exact { result ≡ T.height self.now.tree }
        ensures low { result ≤ height_limit }
    {
        self.height
    }
}

impl<T: HasHeight> Built<Vec<T>> {
    /// No tree.
    pub fn none(alloc: Global) -> Self
        ensures { result.tree.items ≡ [] }
    {
        Built {
            tree: Vec::new(alloc),
            height: 0,
        }
    }

    /// The trees with one more behind them.
    #[tactic(auto, using(ioa_source::proofs::Heights::highest_push))]
    pub fn with_next(self, next: Built<T>) -> Result<Self, Unread>
    where
        T: Drop,
        ensures { Matches Memory (λ b. b.tree.items) result (Some (self.tree.items ++ next.tree ∷ [])) }
    {
        let mut tree = self.tree;
        tree.push(next.tree)?;
        Ok(Built {
            tree,
            height: self.height.max(next.height),
        })
    }
}

impl Built<Term> {
    /// A term, if it is not too high: else the refusal `deep`.
    #[tactic(auto, unfolding(crate::specs::Reading::limited_term))]
    fn limited_term(tree: Term, height: usize, deep: Unread) -> Result<Self, Unread>
        requires { height ≡ heights.height (term_of tree) }
        ensures meant { Matches Memory (λ b. term_of b.tree) result (spec.limited_term (term_of tree)) }
        ensures told { IfErr result (λ e. e ≡ deep) }
    {
        let built = Built::within_limit(tree, height, deep)?;
        Ok(built)
    }

    /// A number.
    pub(crate) fn number(number: i64) -> Self
        ensures { term_of result.tree ≡ plain.number number }
    {
        Built {
            tree: Tree::Number(number),
            height: 1,
        }
    }

    /// `true` or `false`.
    pub(crate) fn truth(truth: bool) -> Self
        ensures { term_of result.tree ≡ plain.truth truth }
    {
        Built {
            tree: Tree::Truth(truth),
            height: 1,
        }
    }

    /// A name.
    pub(crate) fn name(name: Word) -> Self
        ensures { term_of result.tree ≡ plain.name (Name.Word name) tt }
    {
        Built {
            tree: Tree::Name(Name::Word(name), ()),
            height: 1,
        }
    }

    /// A state variable of a node, by the node's number.
    pub(crate) fn variable(name: Word, node: i64) -> Self
        ensures { term_of result.tree ≡ plain.name (Name.Variable name node) tt }
    {
        Built {
            tree: Tree::Name(Name::Variable { name, node }, ()),
            height: 1,
        }
    }

    /// An operator before a term.
    pub(crate) fn one(
        alloc: Global,
        operator: UnaryOperator,
        part: Built<Term>,
        deep: Unread,
    ) -> Result<Self, Unread>
        ensures meant { Matches Memory (λ b. term_of b.tree) result
            (spec.limited_term (plain.one operator (term_of part.tree))) }
        ensures told { IfErr result (λ e. (e ≡ Memory) ⊎ (e ≡ deep)) }
    {
        let height = part.height + 1;
        let part = Box::new(alloc, part.tree)?;
        Built::limited_term(Tree::One(operator, part), height, deep)
    }

    /// An operator between two terms, the left one first.
    pub(crate) fn two(
        alloc: Global,
        operator: BinaryOperator,
        left: Built<Term>,
        right: Built<Term>,
        deep: Unread,
    ) -> Result<Self, Unread>
        ensures meant { Matches Memory (λ b. term_of b.tree) result
            (spec.limited_term (plain.two operator (term_of left.tree) (term_of right.tree))) }
        ensures told { IfErr result (λ e. (e ≡ Memory) ⊎ (e ≡ deep)) }
    {
        let height = left.height.max(right.height) + 1;
        let left = Box::new(alloc, left.tree)?;
        let right = Box::new(alloc, right.tree)?;
        Built::limited_term(Tree::Two(operator, left, right), height, deep)
    }

    /// A word with terms in brackets behind it: the name of a queue, or a function of the terms.
    #[tactic(auto, using(crate::proofs::Called::called_height))]
    pub(crate) fn called(name: Word, parts: Built<Vec<Term>>, deep: Unread) -> Result<Self, Unread>
        ensures meant { Matches Memory (λ b. term_of b.tree) result
            (spec.limited_term (grammar.called name (terms_of (map term_of parts.tree.items)))) }
        ensures told { IfErr result (λ e. (e ≡ Memory) ⊎ (e ≡ deep)) }
    {
        let height = highest(&parts) + 1;
        Built::limited_term(called(name, parts.tree), height, deep)
    }

    /// A display of terms.
    pub(crate) fn display(
        form: DisplayForm,
        parts: Built<Vec<Term>>,
        deep: Unread,
    ) -> Result<Self, Unread>
        ensures meant { Matches Memory (λ b. term_of b.tree) result
            (spec.limited_term (plain.display form tt (terms_of (map term_of parts.tree.items)))) }
        ensures told { IfErr result (λ e. (e ≡ Memory) ⊎ (e ≡ deep)) }
    {
        let height = highest(&parts) + 1;
        Built::limited_term(Tree::Display(form, (), parts.tree), height, deep)
    }

    /// `{}`.
    pub(crate) fn empty(alloc: Global) -> Self
        ensures { term_of result.tree ≡ plain.display DisplayForm.Braces tt plain.no_terms }
    {
        Built {
            tree: Tree::Display(DisplayForm::Braces, (), Vec::new(alloc)),
            height: 1,
        }
    }

    /// A field of a term.
    pub(crate) fn field(
        alloc: Global,
        part: Built<Term>,
        name: Word,
        deep: Unread,
    ) -> Result<Self, Unread>
        ensures meant { Matches Memory (λ b. term_of b.tree) result
            (spec.limited_term (plain.field (term_of part.tree) name tt)) }
        ensures told { IfErr result (λ e. (e ≡ Memory) ⊎ (e ≡ deep)) }
    {
        let height = part.height + 1;
        let part = Box::new(alloc, part.tree)?;
        Built::limited_term(Tree::Field(part, name, ()), height, deep)
    }
}

/// The height of the highest of several terms, 0 if there is none.
fn highest(terms: &Built<Vec<Term>>) -> usize
    ensures exact { result ≡ heights.heights (terms_of (map term_of terms.now.tree.items)) }
    ensures low { result ≤ height_limit }
{
    terms.height
}

/// Whether a word is `queue`.
fn is_queue(name: &Word) -> bool
    ensures { result ≡ grammar.is_queue_word name.now }
{
    name.as_str() == QUEUE
}

/// The two numbers that two terms are, if both are numbers.
fn both_numbers(first: &Term, second: &Term) -> Option<(i64, i64)>
    ensures { result ≡ grammar.both_numbers (term_of first.now) (term_of second.now) }
{
    match (first, second) {
        (Tree::Number(first), Tree::Number(second)) => Some((*first, *second)),
        _ => None,
    }
}

/// The two numbers that terms are, if they are two numbers.
#[tactic(auto, using(crate::proofs::Called::no_two_numbers))]
fn two_numbers(terms: &[Term]) -> Option<(i64, i64)>
    ensures { result ≡ grammar.two_numbers (terms_of (map term_of terms.now)) }
{
    match terms {
        [first, second] => both_numbers(first, second),
        _ => None,
    }
}

/// The name of a queue if two numbers are given, otherwise a call.
fn queue_or_call(name: Word, parts: Vec<Term>, numbers: Option<(i64, i64)>) -> Term
    ensures { term_of result ≡ grammar.queue_or_call name (terms_of (map term_of parts.items)) numbers }
{
    match numbers {
        Some((from, to)) => Tree::Name(Name::Queue { from, to }, ()),
        None => Tree::Call(name, (), parts),
    }
}

/// A word with terms in brackets behind it: `queue` of two numbers is a name, all else a call.
#[tactic(auto, unfolding(crate::specs::Grammar::called))]
fn called(name: Word, parts: Vec<Term>) -> Term
    ensures { term_of result ≡ grammar.called name (terms_of (map term_of parts.items)) }
{
    if is_queue(&name) {
        let numbers = two_numbers(&parts);
        queue_or_call(name, parts, numbers)
    } else {
        Tree::Call(name, (), parts)
    }
}
