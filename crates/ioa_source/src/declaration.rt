//! What a text declares. The trees have three annotations. `N` annotates each name that a term or a
//! target reads: with nothing in a text, with the slot of its value in a checked system. `C` annotates
//! each call: with nothing in a text, with what is called in a checked system. `D` annotates each display,
//! field, assigned variable and declared sort: with nothing in a text, with a shape in a checked system.

use ioa_actions::ChannelKind;
use ioa_terms::{Kind, Sort, Statement, Tree, Word};

/// `x: S`: a name for any value of a sort (profile).
pub struct Declared<D> {
    /// The name.
    pub name: Word,
    /// The sort of its values, as it is spelled.
    pub sort: Sort,
    /// The shape of the sort's values, in a checked system.
    pub shape: D,
}

/// By hand, so that crates above do not prove again how the parts are let go (DECISIONS).
impl<D: Drop> Drop for Declared<D> {
    fn drop(self) {
        let Declared {
            name: _,
            sort: _,
            shape: _,
        } = self;
    }
}

/// A parameter of a signature's entry (profile).
pub enum Parameter<N, C, D> {
    /// A term whose value the argument has to be.
    Const(Tree<N, C, D>),
    /// A name for any value of a sort.
    Declared(Declared<D>),
}

/// By hand, so that crates above do not prove again how the parts are let go (DECISIONS).
impl<N: Drop, C: Drop, D: Drop> Drop for Parameter<N, C, D> {
    fn drop(self) {
        match self {
            Parameter::Const(_) | Parameter::Declared(_) => {}
        }
    }
}

/// An entry of a signature: the actions of one name (Lynch 8.1).
pub struct Entry<N, C, D> {
    /// Input, output or internal.
    pub kind: Kind,
    /// The actions' name.
    pub name: Word,
    /// The parameters, one for each argument of an action.
    pub parameters: Vec<Parameter<N, C, D>>,
    /// The condition behind `where`, if one is written: only actions that meet it are in the signature.
    pub condition: Option<Tree<N, C, D>>,
}

/// By hand, so that crates above do not prove again how the parts are let go (DECISIONS).
impl<N: Drop, C: Drop, D: Drop> Drop for Entry<N, C, D> {
    fn drop(self) {
        let Entry {
            kind: _,
            name: _,
            parameters: _,
            condition: _,
        } = self;
    }
}

/// A variable of the state (Lynch 8.1; sorts and initial terms: profile) or of a schedule block (profile).
pub struct Variable<N, C, D> {
    /// Its name and sort.
    pub declared: Declared<D>,
    /// The term of its first value, if one is written.
    pub initial: Option<Tree<N, C, D>>,
}

/// By hand, so that crates above do not prove again how the parts are let go (DECISIONS).
impl<N: Drop, C: Drop, D: Drop> Drop for Variable<N, C, D> {
    fn drop(self) {
        let Variable {
            declared: _,
            initial: _,
        } = self;
    }
}

/// A transition: when an action is enabled, and what it changes (Lynch 8.1).
pub struct Transition<N, C, D> {
    /// The kind of its action.
    pub kind: Kind,
    /// The name of its action.
    pub name: Word,
    /// The head's arguments, which repeat the entry's parameters.
    pub arguments: Vec<Tree<N, C, D>>,
    /// The guard, if one is written.
    pub pre: Option<Tree<N, C, D>>,
    /// The effect's statements in order.
    pub effect: Vec<Statement<N, C, D>>,
}

/// By hand, so that crates above do not prove again how the parts are let go (DECISIONS).
impl<N: Drop, C: Drop, D: Drop> Drop for Transition<N, C, D> {
    fn drop(self) {
        let Transition {
            kind: _,
            name: _,
            arguments: _,
            pre: _,
            effect: _,
        } = self;
    }
}

/// A schedule block (profile): what a node does in its turns. An automaton without one has the empty block.
pub struct Schedule<N, C, D> {
    /// Its own variables.
    pub variables: Vec<Variable<N, C, D>>,
    /// Its statements in order.
    pub statements: Vec<Statement<N, C, D>>,
}

/// By hand, so that crates above do not prove again how the parts are let go (DECISIONS).
impl<N: Drop, C: Drop, D: Drop> Drop for Schedule<N, C, D> {
    fn drop(self) {
        let Schedule {
            variables: _,
            statements: _,
        } = self;
    }
}

/// An automaton (Lynch 8.1) with its schedule block (profile).
pub struct Automaton<N, C, D> {
    /// Its name.
    pub name: Word,
    /// Its parameters, to which a node gives values.
    pub parameters: Vec<Declared<D>>,
    /// The entries of its signature.
    pub signature: Vec<Entry<N, C, D>>,
    /// Its state variables.
    pub states: Vec<Variable<N, C, D>>,
    /// Its transitions.
    pub transitions: Vec<Transition<N, C, D>>,
    /// Its schedule block.
    pub schedule: Schedule<N, C, D>,
}

/// By hand, so that crates above do not prove again how the parts are let go (DECISIONS).
impl<N: Drop, C: Drop, D: Drop> Drop for Automaton<N, C, D> {
    fn drop(self) {
        let Automaton {
            name: _,
            parameters: _,
            signature: _,
            states: _,
            transitions: _,
            schedule: _,
        } = self;
    }
}

/// What a type's values are (profile).
pub enum TypeForm<D> {
    /// The constants of these names.
    Enumeration(Vec<Word>),
    /// A value for each of these fields.
    Tuple(Vec<Declared<D>>),
}

/// By hand, so that crates above do not prove again how the parts are let go (DECISIONS).
impl<D: Drop> Drop for TypeForm<D> {
    fn drop(self) {
        match self {
            TypeForm::Enumeration(_) | TypeForm::Tuple(_) => {}
        }
    }
}

/// `type T = ..`: a name for an enumeration or a tuple type (profile).
pub struct TypeDeclaration<D> {
    /// The type's name.
    pub name: Word,
    /// What its values are.
    pub form: TypeForm<D>,
}

/// By hand, so that crates above do not prove again how the parts are let go (DECISIONS).
impl<D: Drop> Drop for TypeDeclaration<D> {
    fn drop(self) {
        let TypeDeclaration { name: _, form: _ } = self;
    }
}

/// A declaration of a text, before the system section (profile).
pub enum Declaration<N, C, D> {
    /// A type.
    Type(TypeDeclaration<D>),
    /// An automaton.
    Automaton(Automaton<N, C, D>),
}

/// By hand, so that crates above do not prove again how the parts are let go (DECISIONS).
impl<N: Drop, C: Drop, D: Drop> Drop for Declaration<N, C, D> {
    fn drop(self) {
        match self {
            Declaration::Type(_) | Declaration::Automaton(_) => {}
        }
    }
}

/// `node k: A(t, u)`: an automaton placed on a node (profile).
pub struct Node<N, C, D> {
    /// The node's number.
    pub number: i64,
    /// The automaton's name.
    pub automaton: Word,
    /// The values of the automaton's parameters.
    pub arguments: Vec<Tree<N, C, D>>,
}

/// By hand, so that crates above do not prove again how the parts are let go (DECISIONS).
impl<N: Drop, C: Drop, D: Drop> Drop for Node<N, C, D> {
    fn drop(self) {
        let Node {
            number: _,
            automaton: _,
            arguments: _,
        } = self;
    }
}

/// `channel i -> j`: a reliable FIFO channel (Lynch 14.1); `channel i -> j unordered`: a reliable one that hands out
/// any message that is on it (profile).
#[derive(Clone, Copy, Debug, PartialEq, Eq)]
pub struct Channel {
    /// The node that sends.
    pub from: i64,
    /// The node that receives.
    pub to: i64,
    /// Whether it keeps the order of its messages.
    pub kind: ChannelKind,
}

/// `a(t, u)`: an action's name with its arguments, in a script (profile).
#[derive(Drop)]
pub struct Call<N, C, D> {
    /// The action's name.
    pub name: Word,
    /// The terms of its arguments.
    pub arguments: Vec<Tree<N, C, D>>,
}

/// `script k: a(t, u), b`: what the environment does to a node, in order (profile).
pub struct ScriptDeclaration<N, C, D> {
    /// The node's number.
    pub node: i64,
    /// The inputs of the node, first to last.
    pub calls: Vec<Call<N, C, D>>,
}

/// By hand, so that crates above do not prove again how the parts are let go (DECISIONS).
impl<N: Drop, C: Drop, D: Drop> Drop for ScriptDeclaration<N, C, D> {
    fn drop(self) {
        let ScriptDeclaration { node: _, calls: _ } = self;
    }
}

/// An item of the system section (profile).
pub enum Placement<N, C, D> {
    /// A node.
    Node(Node<N, C, D>),
    /// A channel.
    Channel(Channel),
    /// A script.
    Script(ScriptDeclaration<N, C, D>),
}

/// By hand, so that crates above do not prove again how the parts are let go (DECISIONS).
impl<N: Drop, C: Drop, D: Drop> Drop for Placement<N, C, D> {
    fn drop(self) {
        match self {
            Placement::Node(_) | Placement::Channel(_) | Placement::Script(_) => {}
        }
    }
}

/// `invariant A: t`: a term that is to be true in each state (profile).
pub struct Invariant<N, C, D> {
    /// The invariant's name.
    pub name: Word,
    /// The term.
    pub term: Tree<N, C, D>,
}

/// By hand, so that crates above do not prove again how the parts are let go (DECISIONS).
impl<N: Drop, C: Drop, D: Drop> Drop for Invariant<N, C, D> {
    fn drop(self) {
        let Invariant { name: _, term: _ } = self;
    }
}

/// A whole text (profile).
pub struct Text<N, C, D> {
    /// The declarations before the system section, in order.
    pub declarations: Vec<Declaration<N, C, D>>,
    /// The nodes, channels and scripts of the system section, in order.
    pub system: Vec<Placement<N, C, D>>,
    /// The invariants behind it, in order.
    pub invariants: Vec<Invariant<N, C, D>>,
}

/// By hand, so that crates above do not prove again how the parts are let go (DECISIONS).
impl<N: Drop, C: Drop, D: Drop> Drop for Text<N, C, D> {
    fn drop(self) {
        let Text {
            declarations: _,
            system: _,
            invariants: _,
        } = self;
    }
}
