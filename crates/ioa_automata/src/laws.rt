//! Laws of automata: what functions ensure that do nothing.

ghost use Rattle.std.specs.Prelude.{◌≡◌, ◌↔◌, true, Ok};
ghost use Rattle.ioa_source.specs.Sides.{SourceAutomaton, SourceParameter, SourceTerm};
ghost use Rattle.ioa_system.specs.Parts.{AutomatonParts};
ghost use Rattle.ioa_system.specs.ResolvedPrograms.{IsResolvedAutomaton};
ghost use Rattle.ioa_names.specs.Views.{AreWords};
ghost use Rattle.ioa_types.specs.Meanings.{AreTextTypes, tuple_types};
ghost use Rattle.ioa_types.specs.TextTypes.{PlainTextTypes};
ghost use Rattle.ioa_automata.specs.Automata.{automaton_at};
ghost use Rattle.ioa_automata.specs.DeclaredShapes.{HasDeclaredShapes};
ghost use Rattle.ioa_automata.specs.Parts.{PlainSortedEntry};
ghost use Rattle.ioa_automata.specs.Rules.{repeats, may_have_name};
ghost use Rattle.ioa_automata.specs.SortedAutomata.{IsAutomatonOf, Repeats, IsWellNamed};

/// What is made of an automaton is the text's automaton with slots and shapes. There is no other such automaton: if
/// there is one, it is made, so that an automaton is refused only if there is none. It is ready to step: each name is
/// resolved to the slot of its value. Each tuple type in the shapes of its parameters, and of the arguments of its
/// actions, is the declared one of its name.
pub fn automata_law()
    ensures sound { (t : PlainTextTypes) (a : SourceAutomaton) (c : AutomatonParts) → AreTextTypes t →
        automaton_at t a ≡ Ok c → IsAutomatonOf t a c }
    ensures found { (t : PlainTextTypes) (a : SourceAutomaton) (c : AutomatonParts) → IsAutomatonOf t a c →
        automaton_at t a ≡ Ok c }
    ensures resolved { (t : PlainTextTypes) (a : SourceAutomaton) (c : AutomatonParts) → AreWords t.constants →
        IsAutomatonOf t a c → IsResolvedAutomaton c }
    ensures declared { (t : PlainTextTypes) (a : SourceAutomaton) (c : AutomatonParts) → AreTextTypes t →
        IsAutomatonOf t a c → HasDeclaredShapes (tuple_types t.types) c }
{}

/// A head's argument repeats a parameter exactly if it is the constant's term or the name. An entry may have its name
/// exactly if it is none of `send` and `receive`, or declares a message as these have to.
pub fn heads_law()
    ensures repeats { (p : SourceParameter) (u : SourceTerm) → repeats p u ≡ true ↔ Repeats p u }
    ensures named { (e : PlainSortedEntry) → may_have_name e ≡ true ↔ IsWellNamed e }
{}
