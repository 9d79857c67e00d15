//! Laws of systems that the check accepted: what functions ensure that do nothing.

ghost use Rattle.std.specs.Prelude.{◌≡◌, true, ℕ, ℤ, List, [], None, Some, is_some, length, map};
ghost use Rattle.std.specs.List.{AllByRecursion, AllZip, Contains};
ghost use Rattle.ioa_values.specs.Data.{Data, number};
ghost use Rattle.ioa_operators.specs.Shapes.{PlainShape};
ghost use Rattle.ioa_operators.specs.declared.shape.Shape.{Shape};
ghost use Rattle.ioa_terms.specs.declared.callee.Callee.{Callee};
ghost use Rattle.ioa_terms.specs.Bindings.{Bindings};
ghost use Rattle.ioa_terms.specs.Inboxes.{inbox_values};
ghost use Rattle.ioa_terms.specs.Meaning.{value};
ghost use Rattle.ioa_terms.specs.PlainTerm.{PlainStatements, PlainTerm, statements_of};
ghost use Rattle.ioa_schedules.specs.Turns.{TurnResult, following_statements, turn};
ghost use Rattle.ioa_source.specs.Sides.{SourceText};
ghost use Rattle.ioa_system.specs.InView.{block_bindings};
ghost use Rattle.ioa_system.specs.Parts.{Parts, message_shape};
ghost use Rattle.ioa_system.specs.Systems.{SystemParts};
ghost use Rattle.ioa_check.specs.Systems.{IsSystemOf};
ghost use Rattle.ioa_compose.specs.Automata.{IsExecution};
ghost use Rattle.ioa_compose.specs.Executions.{replay};
ghost use Rattle.ioa_compose.specs.JointStep.{IsJointStep};
ghost use Rattle.ioa_compose.specs.Readings.{channel_messages};
ghost use Rattle.ioa_transitions.specs.Entries.{PlainEntry};
ghost use Rattle.ioa_transitions.specs.NodeState.{NodeState};
ghost use Rattle.ioa_transitions.specs.NodeStep.{IsNodeStep};
ghost use Rattle.ioa_compose.specs.Start.{start};
ghost use Rattle.ioa_compose.specs.Steps.{IsStep};
ghost use Rattle.ioa_compose.specs.declared.configuration.Conf.{Conf};
ghost use Rattle.ioa_run_laws.specs.Awaited.{AreMessagesAwaited};
ghost use Rattle.ioa_turns.specs.Inboxes.{inboxes_seen};
ghost use Rattle.ioa_turns.specs.NodeTurns.{progress_at};
ghost use Rattle.ioa_solo.specs.Solo.{rounds};
ghost use Rattle.ioa_run_laws.specs.BlockStates.{AreBlockStates, IsBlockState};
ghost use Rattle.ioa_run_laws.specs.Inboxes.{block_reads, inbox_term};
ghost use Rattle.ioa_run_laws.specs.Invariants.{IsWellRead};
ghost use Rattle.ioa_run_laws.specs.Parts.{HasShapeThroughout, IsOfShape, parts_of, sum_of_truth};
ghost use Rattle.ioa_run_laws.specs.Shaped.{FitsVariable, FitInboxes, IsShapedNode, AreShaped};
ghost use Rattle.ioa_run_laws.specs.SimpleValues.{AreSimpleValues};
ghost use Rattle.ioa_run_laws.specs.WellSorted.{IsNodeWellSorted, AreConfsWellSorted};

/// At the start of an accepted system each value at a node has its declared shape. A step of a node keeps the shapes,
/// whatever the action, and whatever its effect chooses. So they are kept by each execution from the start, and by each
/// replay, and each message under way has the shape that its receiver takes.
pub fn shapes_kept_law()
    ensures start { (x : SourceText) (s : SystemParts) → IsSystemOf x s → AreShaped s (start s) }
    ensures step { (x : SourceText) (s : SystemParts) (e : PlainEntry) (c d : NodeState) → IsSystemOf x s →
        IsShapedNode s c → IsNodeStep e c d → IsShapedNode s d }
    ensures execution { (x : SourceText) (s : SystemParts) (entries : List PlainEntry) (cs : List Conf) →
        IsSystemOf x s → IsExecution (IsJointStep IsStep) (start s) entries cs → AreShaped s cs }
    ensures replay { (x : SourceText) (s : SystemParts) (entries : List PlainEntry) (cs : List Conf) →
        IsSystemOf x s → replay entries (start s) ≡ Some cs → AreShaped s cs }
{}

/// An accepted system meets no value of a wrong sort and no name without a slot. At a node with its declared shapes
/// each part of each term that a run evaluates has its shape, whether it has a value or not: each name has a value of
/// its shape, and each operator, function, display and field has parts of the shapes that it takes, at any depth. As a
/// whole, each guard, condition and test is a truth value; each term that is assigned has the shape that its target
/// takes, and each key that of the map's keys; each term that yields a value to choose has the shape of the choice, and
/// its condition is read where the chosen name has a value of that shape; each argument of a firing has the shape of
/// the entry's, and so has each constant of an entry. What a variable is given has its sort, but for negative numbers.
/// So it is after each replay from the start.
///
/// What such a term gives, if anything, has the shape, and each part of the term is such a term. `true + 1`, which has
/// no value, is none.
pub fn well_sorted_law()
    ensures node { (x : SourceText) (s : SystemParts) (c : NodeState) → IsSystemOf x s → IsShapedNode s c →
        IsNodeWellSorted c }
    ensures replay { (x : SourceText) (s : SystemParts) (entries : List PlainEntry) (cs : List Conf) →
        IsSystemOf x s → replay entries (start s) ≡ Some cs → AreConfsWellSorted cs }
    ensures value { (e : Bindings) (t : PlainTerm ℕ Callee Shape) (s : PlainShape) →
        HasShapeThroughout e t s → IsOfShape s (value t e) }
    ensures parts { (e : Bindings) (t : PlainTerm ℕ Callee Shape) (s : PlainShape) → HasShapeThroughout e t s →
        AllByRecursion (λ u. (z : PlainShape) × HasShapeThroughout e u z) (parts_of t) }
    ensures sum { (e : Bindings) → (value sum_of_truth e ≡ None)
        × ((s : PlainShape) → HasShapeThroughout e sum_of_truth s → ⊥) }
{}

/// Each value that an effect of an accepted system chooses is simple: a number, a truth value, or a constant of the
/// text. So it is in each entry of an execution from the start (Lynch 8.1), and of a replay, whoever gave the values:
/// none is of another sort than its choice.
pub fn chosen_law()
    ensures execution { (x : SourceText) (s : SystemParts) (entries : List PlainEntry) (cs : List Conf) →
        IsSystemOf x s → IsExecution (IsJointStep IsStep) (start s) entries cs →
        AllByRecursion (λ e. AreSimpleValues (length s.names) e.chosen) entries }
    ensures replay { (x : SourceText) (s : SystemParts) (entries : List PlainEntry) (cs : List Conf) →
        IsSystemOf x s → replay entries (start s) ≡ Some cs →
        AllByRecursion (λ e. AreSimpleValues (length s.names) e.chosen) entries }
{}

/// A node of an accepted system has a rule for each message on a channel to it, which takes the message whatever the
/// node's state (Lynch 8.1): the message is of the sort that it takes, and it has neither a condition nor a guard. So a
/// receipt is a step of the node if its effect leaves values, whatever it chooses.
pub fn receive_law()
    ensures shaped { (x : SourceText) (s : SystemParts) (cs : List Conf) → IsSystemOf x s → AreShaped s cs →
        AreMessagesAwaited cs }
    ensures replay { (x : SourceText) (s : SystemParts) (entries : List PlainEntry) (cs : List Conf) →
        IsSystemOf x s → replay entries (start s) ≡ Some cs → AreMessagesAwaited cs }
{}

/// The variables of a schedule block keep the shapes of their sorts (profile). At the start of an accepted system they
/// have values of these shapes, and the block is well sorted. The inboxes that it sees have their shape as long as the
/// configurations have theirs. A turn that meets no fault leaves such values, and what is to do then is well sorted; so
/// it is behind a `fire`. So it is with each node after each round of a run by one worker: each part of each term that
/// a block tests, assigns or fires in any turn has its shape, whether it has a value or not, and so has each part of a
/// key. What a variable is given has its sort, but for negative numbers.
pub fn block_law()
    ensures start { (x : SourceText) (s : SystemParts) (p : Parts) → IsSystemOf x s → Contains s.programs p →
        IsBlockState p (statements_of p.automaton.schedule.statements) p.block }
    ensures inboxes { (x : SourceText) (s : SystemParts) (p : Parts) (cs : List Conf) →
        IsSystemOf x s → Contains s.programs p → AreShaped s cs →
        FitInboxes (message_shape p.automaton.rules) (inbox_values (inboxes_seen p cs)) }
    ensures turn { (p : Parts) (state inboxes own : List Data) (todo : PlainStatements ℕ Callee Shape) (n : ℕ)
        (r : TurnResult) → AllZip FitsVariable p.automaton.variables state →
        FitInboxes (message_shape p.automaton.rules) inboxes → IsBlockState p todo own →
        turn todo n (block_bindings p.automaton p.arguments state inboxes own) ≡ Some r → (left : List Data)
        × (r.bindings ≡ block_bindings p.automaton p.arguments state inboxes left) × IsBlockState p r.todo left }
    ensures passed { (p : Parts) (todo : PlainStatements ℕ Callee Shape) (own : List Data) →
        IsBlockState p todo own → IsBlockState p (following_statements todo) own }
    ensures rounds { (x : SourceText) (s : SystemParts) (attempts limit n : ℕ) → IsSystemOf x s → AreBlockStates
        (rounds limit n (record { schedule = []; states = start s }) (map (progress_at attempts) s.programs)).1 }
{}

/// What `inbox(t)` is in the schedule block of a node (profile), if the node's automaton takes messages and t is the
/// number i: the sequence of the messages that wait on the channel from node i to the node, from the first to be taken
/// to the last (Lynch 14.1). If there is no such channel, it has no value. So it is whatever values the state variables
/// have, and whatever values of their shapes the block's own have.
pub fn inbox_term_law()
    ensures value { (x : SourceText) (s : SystemParts) (p : Parts) (cs : List Conf) (state own : List Data)
        (c : Callee) (t : PlainTerm ℕ Callee Shape) (i : ℤ) →
        IsSystemOf x s → Contains s.programs p → AreShaped s cs →
        AllZip FitsVariable p.automaton.schedule.variables own →
        is_some (message_shape p.automaton.rules) ≡ true →
        value t (block_reads p cs state own) ≡ Some (number i) →
        value (inbox_term c t) (block_reads p cs state own) ≡ channel_messages i p.node cs }
{}

/// In each state that a replay of an accepted system reaches, what its invariants read is there. `x@k` has the shape of
/// the state variable x at node k, and `queue(i, j)` is a sequence of the messages that node j takes. Each part of an
/// invariant's term has its shape, whether it has a value or not, and what the whole gives, if anything, is a truth
/// value.
pub fn invariants_law()
    ensures replay { (x : SourceText) (s : SystemParts) (entries : List PlainEntry) (cs : List Conf) →
        IsSystemOf x s → replay entries (start s) ≡ Some cs → AllByRecursion (IsWellRead s cs) s.invariants }
{}
