//! Types of programs.
ghost use Rattle.std.specs.Prelude.{◌≡◌, ◌++◌, ◌∷◌, [], IfOk, IfErr, MatchResult, OnOk, Ok, Err, All};
ghost use Rattle.kl_type.specs.Ground.{Ground};
ghost use Rattle.kl_rows.specs.Places.{a_type, a_function};
ghost use Rattle.kl_outcome.specs.Outcome.{Name};
ghost use Rattle.kl_syntax.specs.View.{pattern_view};
ghost use Rattle.kl_meaning.specs.Typing.{Types, FunctionTypes};
ghost use Rattle.kl_infer.specs.Asking.{OnNoType};
ghost use Rattle.kl_infer.specs.Declaring.{AreMade, Concluded, Declared, HasNoType, IsAt, IsMade};
ghost use Rattle.kl_infer.specs.Inferred.{IsPrincipal, IsArrow};
ghost use Rattle.kl_infer.specs.Names.{IsGood, meant, sorts};
ghost use Rattle.kl_infer.specs.declared.refusal.Refusal.TheVariants.{NoType, NoMemory as TypeWantsMemory};
ghost use Rattle.kl_base.specs.Fields.{field};
ghost use Rattle.std.specs.Option.{option_copied};
ghost use Rattle.kl_rows.specs.declared.Scheme.{Scheme};
ghost use Rattle.kl_infer.specs.declared.inference.InferError.TheVariants.{NoMemory as WantOfMemory};
ghost use Rattle.kl_type.specs.Ground.{IsProper};
ghost use Rattle.kl_syntax.specs.View.{view, decls_of};
ghost use Rattle.kl_infer.specs.Inferred.{Infers, types_of};
ghost use Rattle.kl_infer.specs.Refusing.{IsRefusal};

use crate::refusal::Refusal;
use crate::scope::{Known, Scope, Sense, stands_for};
use crate::typed::Typed;
use crate::typing::Typing;
use kl_base::{Label, NoMemory, Seq, Shared};
use kl_rows::Scheme;
use kl_scope::Scoped;
use kl_syntax::{Decl, Expr, Pattern};
use kl_type::Ty;
use std::alloc::Global;
use thiserror::Error;

/// Why a program has no types.
#[derive(Debug, Drop, PartialEq, Eq, Error)]
pub enum InferError {
    /// The program has no typing. Counted from 0, with the last expression behind the definitions, this is the first
    /// declaration such that the program cut after it has none.
    #[error("no typing for declaration {decl}")]
    IllTyped { decl: u32 },
    /// Want of memory.
    #[error("out of memory")]
    NoMemory,
}

impl From<NoMemory> for InferError {
    ghost from_gives = { λ _ e. e ≡ WantOfMemory };

    fn from(_error: NoMemory) -> InferError {
        InferError::NoMemory
    }
}

/// The principal schemes of a program's definitions and of its last expression, over the types of its sources: the
/// instances of each are exactly the types that the declaration has.
///
/// # Errors
/// `IllTyped` exactly where the program has no typing. Want of memory, and more definitions than 32 bits can number.
pub fn infer(alloc: Global, scoped: &Scoped, sources: &[(Label, Ty)]) -> Result<Typed, InferError>
    requires proper { All (λ s. IsProper s.1) sources.now }
    ensures typed { IfOk result (Infers (decls_of scoped.now.program.defs) (view scoped.now.program.last) (types_of sources.now)) }
    ensures refused { IfErr result (IsRefusal (decls_of scoped.now.program.defs) (view scoped.now.program.last) (types_of sources.now)) }
{
    let program = scoped.program();
    let defs = program.defs.slice();
    let mut schemes = Vec::new(alloc);
    let mut made = Vec::new(alloc);
    'defs: for i in 0..defs.len() {
        let found = declared(
            alloc,
            &defs[i],
            &Known {
                defs,
                schemes: &schemes,
                sources,
            },
            &mut made,
        );
        match found {
            Ok(scheme) => push(&mut schemes, scheme)?,
            Err(refusal) => return Err(refused(i, refusal)),
        }
    }
    let found = constant(
        alloc,
        &program.last,
        &Known {
            defs,
            schemes: &schemes,
            sources,
        },
    );
    match found {
        Ok(result) => Ok(Typed {
            schemes: Seq::of(schemes),
            result,
        }),
        Err(refusal) => Err(refused(defs.len(), refusal)),
    }
}

// The refusal of the declaration at a place.
fn refused(place: usize, refusal: Refusal) -> InferError
    ensures { IsAt place refusal result }
{
    match refusal {
        Refusal::NoType => match u32::try_from(place) {
            Ok(decl) => InferError::IllTyped { decl },
            Err(_) => InferError::NoMemory,
        },
        Refusal::NoMemory => InferError::NoMemory,
    }
}

fn push(schemes: &mut Vec<Shared<Scheme>>, scheme: Shared<Scheme>) -> Result<(), NoMemory>
    ensures { IfOk result (λ _. schemes.new.items ≡ schemes.old.items ++ scheme ∷ []) }
{
    schemes.push(scheme)?;
    Ok(())
}

// The scheme of a definition.
fn declared(
    alloc: Global,
    decl: &Decl,
    known: &Known,
    made: &mut Vec<(Label, Shared<Scheme>)>,
) -> Result<Shared<Scheme>, Refusal>
    requires good { (x : Name) → IsGood (meant known.now x) }
    requires made { AreMade known.now.sources.now made.old.items }
    ensures made { OnOk result (AreMade known.now.sources.now made.new.items) }
    ensures scheme { MatchResult result (Declared decl.now.param decl.now (sorts known.now))
        (λ e. OnNoType e (HasNoType decl.now.param decl.now
        (sorts known.now))) }
{
    match &decl.param {
        Some(param) => shared(alloc, function(alloc, param, &decl.body, known)),
        None => value(alloc, &decl.body, known, made),
    }
}

// The scheme of a value. A name has that of what it names, and a source's is made once.
fn value(
    alloc: Global,
    e: &Expr,
    known: &Known,
    made: &mut Vec<(Label, Shared<Scheme>)>,
) -> Result<Shared<Scheme>, Refusal>
    requires good { (x : Name) → IsGood (meant known.now x) }
    requires made { AreMade known.now.sources.now made.old.items }
    ensures made { OnOk result (AreMade known.now.sources.now made.new.items) }
    ensures scheme { Concluded result (Types (view e.now) (sorts known.now) []) }
{
    match e {
        Expr::Name(x) => match stands_for(known, &x.text) {
            Sense::Value(scheme) => again(scheme),
            Sense::Source(_) => match made_for(&*made, &x.text) {
                Some(scheme) => again(scheme),
                None => make(alloc, e, &x.text, known, made),
            },
            _ => shared(alloc, constant(alloc, e, known)),
        },
        _ => shared(alloc, constant(alloc, e, known)),
    }
}

// The scheme of a name, which stands for a source of which none was made.
fn make(
    alloc: Global,
    e: &Expr,
    name: &Label,
    known: &Known,
    made: &mut Vec<(Label, Shared<Scheme>)>,
) -> Result<Shared<Scheme>, Refusal>
    requires good { (x : Name) → IsGood (meant known.now x) }
    requires made { AreMade known.now.sources.now made.old.items }
    requires is_source { (p : Scheme) → IsPrincipal a_type p (Types (view e.now) (sorts known.now) [])
        → IsMade known.now.sources.now (name.now, p) }
    ensures made { OnOk result (AreMade known.now.sources.now made.new.items) }
    ensures scheme { Concluded result (Types (view e.now) (sorts known.now) []) }
{
    let scheme = shared(alloc, constant(alloc, e, known))?;
    made.push((name.dup()?, scheme.dup()?))?;
    Ok(scheme)
}

fn made_for<'a>(made: &'a [(Label, Shared<Scheme>)], name: &Label) -> Option<&'a Shared<Scheme>>
    ensures { option_copied result ≡ field name.now made.now }
{
    for pair in made {
        if *name == pair.0 {
            return Some(&pair.1);
        }
    }
    None
}

fn again(scheme: &Shared<Scheme>) -> Result<Shared<Scheme>, Refusal>
    ensures { MatchResult result (λ s. s ≡ scheme.now) (λ e. e ≡ TypeWantsMemory) }
{
    Ok(scheme.dup()?)
}

fn shared(alloc: Global, found: Result<Scheme, Refusal>) -> Result<Shared<Scheme>, Refusal>
    ensures { MatchResult result (λ s. found ≡ Ok s) (λ e. OnNoType e (found ≡ Err NoType)) }
{
    match found {
        Ok(scheme) => Ok(Shared::new(alloc, scheme)?),
        Err(refusal) => Err(refusal),
    }
}

fn constant(alloc: Global, e: &Expr, known: &Known) -> Result<Scheme, Refusal>
    requires { (x : Name) → IsGood (meant known.now x) }
    ensures { Concluded result (Types (view e.now) (sorts known.now) []) }
{
    let mut typing = Typing::new(alloc);
    let t = typing.fresh()?;
    typing.check(e, known, &Scope::Empty, t)?;
    typing.conclude(t)
}

fn function(alloc: Global, param: &Pattern, body: &Expr, known: &Known) -> Result<Scheme, Refusal>
    requires { (x : Name) → IsGood (meant known.now x) }
    ensures { MatchResult result (λ p. IsPrincipal a_function p
        (IsArrow (FunctionTypes (sorts known.now) (pattern_view param.now) (view body.now))))
        (λ refusal. OnNoType refusal ((s t : Ground) → FunctionTypes (sorts known.now) (pattern_view param.now) (view body.now) s t → ⊥)) }
{
    let mut typing = Typing::new(alloc);
    let from = typing.fresh()?;
    let mut bound = Vec::new(alloc);
    typing.takes(param, known, &Scope::Empty, from, &mut bound)?;
    let to = typing.fresh()?;
    typing.check(body, known, &Scope::Block(&bound, &Scope::Empty), to)?;
    let whole = typing.arrow(from, to)?;
    typing.conclude(whole)
}
