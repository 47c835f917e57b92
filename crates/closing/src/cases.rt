//! Promises about the rules themselves.
ghost use Rattle.std.specs.Prelude.{◌≡◌, ℕ, List, length};
ghost use Rattle.std.specs.List.{AllByRecursion};
ghost use Rattle.axioms.specs.declared.axiom_types.Axiom.{Axiom};
ghost use Rattle.axioms.specs.declared.kinds.Kind.{Kind};
ghost use Rattle.closing.specs.Cases.{Right, cases};
ghost use Rattle.closing.specs.Meaning.{Interpretation, FitsAll, Holds};
ghost use Rattle.closing.specs.Rules.{Derives};

/// Its promise is that whatever can be derived from axioms holds in every interpretation that fits them.
pub fn rules_are_sound()
    ensures whatever_is_derivable_holds { (axioms : List Axiom) (classes properties : ℕ) (k : Kind) (l r : ℕ) → Derives axioms classes properties k l r → (I : Interpretation) → FitsAll I axioms → Holds I k l r }
{}

/// How many cases were worked by hand. Its promise is that in each of them exactly the expected names are empty.
pub fn cases_are_right() -> usize
    ensures each_case_is_right { AllByRecursion Right cases }
    ensures there_are_so_many { result ≡ length cases }
{
    9
}
