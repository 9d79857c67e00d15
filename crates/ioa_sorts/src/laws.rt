//! Laws of sorts: what functions ensure that do nothing.

ghost use Rattle.std.specs.Prelude.{◌≡◌, false, Some, Ok, Err, map};
ghost use Rattle.std.specs.List.{IsDistinct};
ghost use Rattle.ioa_operators.specs.Shapes.{PlainShape};
ghost use Rattle.ioa_terms.specs.Sorted.{NameShapes};
ghost use Rattle.ioa_source.specs.Sides.{SourceTerm, SourceStatement};
ghost use Rattle.ioa_refusals.specs.declared.refusal.Refusal.{Refusal};
ghost use Rattle.ioa_typed.specs.Parts.{SortedTerm, typed};
ghost use Rattle.ioa_sorts.specs.Sorting.{infer, fit, sorting};
ghost use Rattle.ioa_sorts.specs.Determined.{is_display, IsDetermined};
ghost use Rattle.ioa_sort_rules.specs.DeclaredTypes.{TupleTypes, IsDeclared, AreAllDeclared};
ghost use Rattle.ioa_sorts.specs.SortedTerms.{IsTermOf};
ghost use Rattle.ioa_sorts.specs.SortedStatements.{IsDeterminedStatement, IsStatementOf};
ghost use Rattle.ioa_sorts.specs.Statements.{SortedStatement, statement_sorting};
ghost use Rattle.ioa_sorts.specs.StatementSites.{IsDeclaredSite, PlainStatementSite};
ghost use Rattle.ioa_terms.specs.Bindings.{same_word};

/// The rules of sorts, against the meaning of sorts. A term that they find is the text's, with the slot of each name,
/// has the shape, and has only determined displays. There is no other such term: they find each that there is. They
/// refuse a term by `EmptyOfWhat` (32) only if one of its displays is not determined. The declared types matter for the
/// first alone: tuple types are compared by name, and a text declares each name once.
pub fn sorts_law()
    // what the rules find
    ensures own { (types : TupleTypes) (names : NameShapes) → AreAllDeclared types names → (u : SourceTerm)
        (t : SortedTerm) (s : PlainShape) → infer (sorting names u) ≡ Ok (Some (typed t s)) → IsTermOf names u t s }
    ensures own_declared { (types : TupleTypes) (names : NameShapes) → AreAllDeclared types names → (u : SourceTerm)
        (t : SortedTerm) (s : PlainShape) → infer (sorting names u) ≡ Ok (Some (typed t s)) → IsDeclared types s }
    ensures own_bare { (types : TupleTypes) (names : NameShapes) → AreAllDeclared types names → (u : SourceTerm)
        (t : SortedTerm) (s : PlainShape) → infer (sorting names u) ≡ Ok (Some (typed t s)) → is_display u ≡ false }
    ensures wanted { (types : TupleTypes) (names : NameShapes) → AreAllDeclared types names → (u : SourceTerm)
        (s : PlainShape) → IsDeclared types s →
        (t : SortedTerm) → fit (sorting names u) s ≡ Ok t → IsTermOf names u t s }
    // they find each such term
    ensures found { (names : NameShapes) (u : SourceTerm) (t : SortedTerm) (s : PlainShape) → IsTermOf names u t s →
        fit (sorting names u) s ≡ Ok t }
    ensures found_own { (names : NameShapes) (u : SourceTerm) (t : SortedTerm) (s : PlainShape) → IsTermOf names u t s →
        is_display u ≡ false → infer (sorting names u) ≡ Ok (Some (typed t s)) }
    // if each display is determined, the term is not refused for want of a sort
    ensures told { (names : NameShapes) (u : SourceTerm) → IsDetermined u → (s : PlainShape) →
        fit (sorting names u) s ≡ Err Refusal.EmptyOfWhat → ⊥ }
    ensures told_own { (names : NameShapes) (u : SourceTerm) → IsDetermined u →
        infer (sorting names u) ≡ Err Refusal.EmptyOfWhat → ⊥ }
{}

/// The same of statements, where some names in view are variables, which may be assigned: a statement that the rules
/// find is the text's with slots and shapes, what it assigns has the sort of its target, what it tests is a truth
/// value, what it fires is an action with its arguments, and what it chooses has a simple sort, which its target holds,
/// and a new name, which only the condition reads. They find each such statement, if the names of the rules differ, and
/// refuse one by `EmptyOfWhat` (32) only if one of its displays is not determined.
pub fn statements_law()
    ensures sound { (types : TupleTypes) (site : PlainStatementSite) → IsDeclaredSite types site →
        (u : SourceStatement) (s : SortedStatement) → statement_sorting site u ≡ Ok s → IsStatementOf site u s }
    ensures found { (site : PlainStatementSite) → IsDistinct same_word (map (λ r. r.entry.name) site.rules) →
        (u : SourceStatement) (s : SortedStatement) → IsStatementOf site u s → statement_sorting site u ≡ Ok s }
    ensures told { (site : PlainStatementSite) (u : SourceStatement) → IsDeterminedStatement u →
        statement_sorting site u ≡ Err Refusal.EmptyOfWhat → ⊥ }
{}
