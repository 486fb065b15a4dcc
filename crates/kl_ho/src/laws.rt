//! Laws of expansions.
ghost use Rattle.std.specs.Prelude.{◌≡◌, ◌↔◌, List, Option, ℕ};
ghost use Rattle.kl_value.specs.declared.Value.{Value};
ghost use Rattle.kl_type.specs.Ground.{Ground};
ghost use Rattle.kl_outcome.specs.Outcome.{Name, Outcome};
ghost use Rattle.kl_syntax.specs.Syntax.{Exp, Decls};
ghost use Rattle.kl_meaning.specs.Run.{meaning_of_program};
ghost use Rattle.kl_meaning.specs.Typing.{ProgramTypes, HasTyping};
ghost use Rattle.kl_ho.specs.Expansion.{New, IsExpansionAt};
ghost use Rattle.kl_ho.specs.Functions.{AreFunctionFields, HaveSameParts};
ghost use Rattle.kl_ho.specs.Highers.{Highers, Funs};
ghost use Rattle.kl_infer.specs.Inferred.{IsIllTyped};
ghost use Rattle.kl_desugar.specs.Translation.{term_of};
ghost use Rattle.kl_ho.specs.HoFails.{IsHoIllTyped, given_number};
ghost use Rattle.kl_ho.specs.HoPrograms.{FunctionFields, ProgramComes, HoProgramTypes, HoHasTyping, IsExpansion};
ghost use Rattle.kl_ho.specs.Keeps.{AreOld, KnowsFirst, KeepsDecls, IsAccepted};
ghost use Rattle.kl_ho.specs.Nodes.{nodes};
ghost use Rattle.kl_ho.specs.Plain.{CatchFunctions, HasNoBreach, first_arity, first_world};
ghost use Rattle.kl_ho.specs.Shapes.{Chooses, DefinesOld, IsShapedDecls, World};

/// The laws of expansions. At some depth the outcome of a program comes, and it is that of its expansion; at no depth
/// another outcome comes. A program has the types of its expansion, and where it has no typing the first declaration without
/// one is that of its expansion, by its number in the program. The expansion of a program that keeps to the rules of scope has
/// no breach, and there is one, where each list of names leaves a new one. All expansions of an expression have as many
/// expressions, and all expansions of a program the same term.
pub fn expansion_laws()
    ensures comes { (fields : FunctionFields) (ds : Decls) (e : Exp) (cs : Decls) (x : Exp) → IsExpansion fields ds e cs x → (sources : List (Name × Value))
        → (n : ℕ) × ProgramComes n fields ds e sources (meaning_of_program cs x sources) }
    ensures comes_alone { (fields : FunctionFields) (ds : Decls) (e : Exp) (cs : Decls) (x : Exp) → IsExpansion fields ds e cs x → (sources : List (Name × Value)) (n : ℕ) (o : Outcome)
        → ProgramComes n fields ds e sources o → o ≡ meaning_of_program cs x sources }
    ensures types { (fields : FunctionFields) (ds : Decls) (e : Exp) (cs : Decls) (x : Exp) → IsExpansion fields ds e cs x → (sources : List (Name × Ground)) (t : Ground)
        → HoProgramTypes fields ds e sources t ↔ ProgramTypes cs x sources t }
    ensures typing { (fields : FunctionFields) (ds : Decls) (e : Exp) (cs : Decls) (x : Exp) → IsExpansion fields ds e cs x → (sources : List (Name × Ground))
        → HoHasTyping fields ds e sources ↔ HasTyping cs x sources }
    ensures ill_typed { (fields : FunctionFields) (ds : Decls) (e : Exp) (cs : Decls) (x : Exp) → IsExpansion fields ds e cs x → (sources : List (Name × Ground)) (i : ℕ)
        → IsHoIllTyped fields ds e sources i ↔ ((k : ℕ) × (i ≡ given_number fields ds k) × IsIllTyped cs x sources k) }
    ensures same_term { (fields : FunctionFields) (ds : Decls) (e : Exp) (cs : Decls) (x : Exp) (also : Decls) (y : Exp) → IsExpansion fields ds e cs x → IsExpansion fields ds e also y
        → (sources : List Name) → term_of cs x sources ≡ term_of also y sources }
    ensures accepted { (fields : FunctionFields) (ds : Decls) (e : Exp) (cs : Decls) (x : Exp) → IsExpansion fields ds e cs x → (sources : List Name) (world : World) (arity : Name → Option ℕ)
        → KnowsFirst sources world arity → KeepsDecls fields ds e world arity → IsAccepted cs x sources }
    ensures has_expansion { (fields : FunctionFields) (is_new : New) (sources : List Name) (world : World) (arity : Name → Option ℕ) (ds : Decls) (e : Exp) → Chooses is_new → AreOld is_new arity
        → DefinesOld is_new ds → KnowsFirst sources world arity → KeepsDecls fields ds e world arity → (cs : Decls) × (x : Exp) × IsExpansion fields ds e cs x }
    ensures same_size { (highers : Highers) (n m : ℕ) (funs : Funs) (e x y : Exp) → IsExpansionAt n highers funs e x → IsExpansionAt m highers funs e y → nodes x ≡ nodes y }
{}

/// A program whose functions keep to their shapes, and which breaks no rule of names once its functions
/// are taken out, keeps to the rules over what stands before a program.
pub fn scoping_laws()
    ensures keeps { (fields : FunctionFields) (ds : Decls) (e : Exp) (sources : List Name) → CatchFunctions fields ds → IsShapedDecls fields ds e (first_world sources) → HasNoBreach fields ds e sources
        → KeepsDecls fields ds e (first_world sources) (first_arity sources) }
    ensures first { (sources : List Name) → KnowsFirst sources (first_world sources) (first_arity sources) }
{}

/// The function fields of a program's definitions, as the least ones that its calls make so, are unique: whatever two lists
/// of labels have them, the definitions have the same parts.
pub fn function_field_laws()
    ensures unique { (fields also : FunctionFields) (ds : Decls) (sources : List Name) → AreFunctionFields fields ds sources → AreFunctionFields also ds sources → HaveSameParts fields also ds }
{}
