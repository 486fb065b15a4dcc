//! Laws of programs that have types.
ghost use Rattle.std.specs.Prelude.{◌≡◌, ◌≢◌, List};
ghost use Rattle.kl_value.specs.declared.Value.{Value};
ghost use Rattle.kl_type.specs.Ground.{Ground, IsGround};
ghost use Rattle.kl_outcome.specs.Outcome.{Name, stuck};
ghost use Rattle.kl_outcome.specs.Typed.{OfType};
ghost use Rattle.kl_syntax.specs.Syntax.{Exp, Decls};
ghost use Rattle.kl_meaning.specs.Run.{meaning_of_program};
ghost use Rattle.kl_meaning.specs.Tidy.{IsTidyProgram};
ghost use Rattle.kl_meaning.specs.Typing.{AreGround, HaveTypesByName, ProgramTypes};

/// The laws of typing. Over sources of the language's types, each type of a program is one of these. Over sources whose
/// values have their types, a program that has a type makes sense, and what it means is of that type: a canonical value
/// of it, or an overflow, before which a list alone has items, each of the type of its items. The program keeps the
/// rules of scope on its form: a pattern that has to match has no test in it, and no record has a label twice.
pub fn typing_laws()
    ensures types_proper { (ds : Decls) (e : Exp) (types : List (Name × Ground)) (t : Ground) → AreGround types
        → ProgramTypes ds e types t → IsGround t }
    ensures never_stuck { (ds : Decls) (e : Exp) (types : List (Name × Ground)) (values : List (Name × Value)) (t : Ground)
        → IsTidyProgram ds e → HaveTypesByName types values → ProgramTypes ds e types t → meaning_of_program ds e values ≢ stuck }
    ensures keeps_type { (ds : Decls) (e : Exp) (types : List (Name × Ground)) (values : List (Name × Value)) (t : Ground)
        → IsTidyProgram ds e → HaveTypesByName types values → ProgramTypes ds e types t → OfType t (meaning_of_program ds e values) }
{}
