//! What is wrong with the text of a program, or with a source that it mentions.
ghost use Rattle.std.specs.Prelude.{◌≡◌, ◌++◌, ◌≤◌, ℕ, List, All, IfOk, MatchOption, length, ⊤};
ghost use Rattle.std.specs.Option.{option_copied};
ghost use Rattle.kl_infer.specs.Inferred.{types_of};
ghost use Rattle.kl_scope.specs.Breaches.{is_marked};
ghost use Rattle.kl_sources.specs.Attaching.{HaveNone};
ghost use Rattle.kl_sources.specs.Sources.{ArePlaced, kinds_of};
ghost use Rattle.kl_type.specs.Ground.{IsProper};
ghost use Rattle.kl_why.specs.Finding.{Attaches, FindsIn, IsOfName, TellsTyping};
ghost use Rattle.kl_why.specs.Untyped.{IsUntyped};

use crate::asking::{Asked, has_no_type, piece_of, program_by, program_of};
use crate::blame::{Part, Role, smallest};
use crate::drivers::{Drivers, SeenAll};
use crate::program::read_program;
use crate::source::why_source;
use crate::spans::{Span, closers, find_symbol, keyword_at};
use crate::why::{Spot, Why, spot_of};
use crate::wrong::{Refusal, Wrong};
use kl_ask::name_boxed;
use kl_base::{Label, NoMemory, Text};
use kl_lex::{Keyword, Sym, lex};
use kl_outside::Files;
use kl_scope::Scoped;
use kl_sources::{AttachError, Source, attach_sources, names_of, types_of};
use kl_type::Ty;
use std::alloc::Global;

/// What is wrong with the text of a program, which stands at a path, or with the first source that it mentions and its driver
/// refuses.
///
/// # Errors
/// What is wrong; want of memory.
pub fn find_in<F: Files>(
    alloc: Global,
    path: &Text,
    text: Text,
    sources: Vec<Source>,
    files: &mut F,
    drivers: &mut Drivers,
) -> Result<(), Why>
    requires few { length text ≤ 65536 }
    requires placed { ArePlaced (kinds_of (⟦<Drivers as SeenAll>⟧.states drivers.old)) sources.items }
    requires clear { HaveNone (⟦<Drivers as SeenAll>⟧.states drivers.old) }
    ensures { FindsIn (F.state files.old).told (⟦<Drivers as SeenAll>⟧.states drivers.old) (⟦<Drivers as SeenAll>⟧.states drivers.new)
        path.now text sources.items result }
{
    let names = names_of(alloc, &sources)?;
    let types = types_of(alloc, &sources)?;
    match read_program(alloc, text.slice(), &names, &types) {
        Ok(scoped) => attach(alloc, sources, &scoped, files, drivers),
        Err(
            Refusal::Wrong {
                wrong: Wrong::NoTyping,
                byte,
            },
        ) => Err(why_untyped(alloc, path, text, &names, &types, byte)?),
        Err(Refusal::Wrong { wrong, byte }) => Err(Why::Program(
            wrong,
            spot_of(alloc, path, text, byte)?,
        )),
        Err(Refusal::NoMemory) => Err(Why::NoMemory),
    }
}

// Attaches the sources that a program mentions, up to the first that is refused.
fn attach<F: Files>(
    alloc: Global,
    sources: Vec<Source>,
    scoped: &Scoped,
    files: &mut F,
    drivers: &mut Drivers,
) -> Result<(), Why>
    requires placed { ArePlaced (kinds_of (⟦<Drivers as SeenAll>⟧.states drivers.old)) sources.items }
    requires clear { HaveNone (⟦<Drivers as SeenAll>⟧.states drivers.old) }
    ensures { Attaches (F.state files.old).told (⟦<Drivers as SeenAll>⟧.states drivers.old) (⟦<Drivers as SeenAll>⟧.states drivers.new)
        (is_marked scoped.now) sources.items result }
{
    let kept = copies(alloc, &sources)?;
    match attach_sources(alloc, sources, scoped, drivers) {
        Ok(_) => Ok(()),
        Err(AttachError { source, error }) => match named(&kept, &source) {
            Some(found) => {
                let is_nested = is_nested(found, &*drivers);
                Err(why_source(alloc, files, found, &error, is_nested)?)
            }
            None => Err(Why::NoMemory),
        },
    }
}

fn copies(alloc: Global, sources: &[Source]) -> Result<Vec<Source>, NoMemory>
    ensures { IfOk result (λ found. found.items ≡ sources.now) }
{
    let mut found = Vec::new(alloc);
    'sources: for source in sources {
        found.push(Source {
            name: source.name.dup()?,
            ty: source.ty.dup(alloc)?,
            driver: source.driver,
            locator: source.locator.dup(alloc)?,
        })?;
    }
    Ok(found)
}

// The source of a name.
fn named<'a>(sources: &'a [Source], name: &Label) -> Option<&'a Source>
    ensures { IsOfName name.now sources.now (option_copied result) }
{
    for source in sources {
        if source.name == *name {
            return Some(source);
        }
    }
    None
}

// Whether the driver of a source reads files of values.
fn is_nested(source: &Source, drivers: &Drivers) -> bool {
    let at = source.driver as usize;
    at < drivers.len() && name_boxed(&drivers[at]) == b"nested".as_slice()
}

// What is told of a program whose declaration at a byte has no type: the smallest part of it that has none where it stands, if that
// has none, else the declaration.
fn why_untyped(
    alloc: Global,
    path: &Text,
    text: Text,
    names: &[Label],
    types: &[(Label, Ty)],
    byte: u32,
) -> Result<Why, NoMemory>
    requires few { length text ≤ 65536 }
    requires proper { All (λ s. IsProper s.1) types.now }
    ensures { IfOk result (TellsTyping names.now (types_of types.now) path.now text byte) }
{
    match part_in(alloc, text.slice(), names, types, byte)? {
        Some(part) => Ok(Why::Untyped(
            part.reason,
            Spot {
                path: path.dup(alloc)?,
                bytes: text,
                byte: part.byte,
            },
        )),
        None => Ok(Why::Program(Wrong::NoTyping, spot_of(alloc, path, text, byte)?)),
    }
}

// The byte of a part without a type, and why it has none.
#[derive(Drop)]
struct Untyped {
    byte: usize,
    reason: Text,
}

fn part_in(
    alloc: Global,
    text: &[u8],
    names: &[Label],
    types: &[(Label, Ty)],
    byte: u32,
) -> Result<Option<Untyped>, NoMemory>
    requires few { length text.now ≤ 65536 }
    requires proper { All (λ s. IsProper s.1) types.now }
    ensures { IfOk result (λ found. MatchOption found ⊤ (λ u. IsUntyped names.now (types_of types.now) text.now u.byte)) }
{
    let Ok(lexed) = lex(alloc, text) else {
        return Err(NoMemory);
    };
    let tokens = lexed.slice();
    let closers = closers(alloc, tokens)?;
    let Some(first) = tokens.iter().position(|token| token.from == byte) else {
        return Ok(None);
    };
    let after = Span {
        from: first,
        to: tokens.len(),
    };
    let end = find_symbol(tokens, &closers, after, Sym::Semi).unwrap_or(tokens.len());
    let is_definition = keyword_at(tokens, first) == Some(Keyword::Define);
    let behind = Span {
        from: if is_definition {
            first.saturating_add(3)
        } else {
            first
        },
        to: end,
    };
    let arrow = if is_definition {
        find_symbol(tokens, &closers, behind, Sym::Arrow)
    } else {
        None
    };
    let asked = Asked {
        text,
        names,
        types,
        tokens,
        closers: &closers,
        first,
        body: match arrow {
            Some(at) => Span {
                from: at.saturating_add(1),
                to: end,
            },
            None => behind,
        },
        is_function: arrow.is_some(),
    };
    told(alloc, &asked)
}

// The smallest part without a type of a declaration, if it has none.
fn told(alloc: Global, asked: &Asked) -> Result<Option<Untyped>, NoMemory>
    requires { All (λ s. IsProper s.1) asked.now.types.now }
    ensures { IfOk result (λ found. MatchOption found ⊤ (λ u. IsUntyped asked.now.names.now (types_of asked.now.types.now) asked.now.text.now u.byte)) }
{
    let Part {
        span,
        generators,
        role,
        reason,
    } = smallest(alloc, asked)?;
    let Some(reason) = reason else {
        return Ok(None);
    };
    let piece = piece_of(asked.text, asked.tokens, span);
    let alone = program_with(alloc, asked, &generators, piece.bytes, &role)?;
    if has_no_type(alloc, &alone, asked.names, asked.types)? {
        Ok(Some(Untyped {
            byte: piece.byte,
            reason,
        }))
    } else {
        Ok(None)
    }
}

// A program that asks for a part as its role says.
fn program_with(
    alloc: Global,
    asked: &Asked,
    generators: &[u8],
    part: &[u8],
    role: &Role,
) -> Result<Vec<u8>, NoMemory>
    ensures { IfOk result (λ text. (front : List ℕ) × (back : List ℕ) × (text.items ≡ front ++ part.now ++ back)) }
{
    match role {
        Role::Item => program_of(alloc, asked, generators, part),
        Role::Qualifier(behind) => program_by(alloc, asked, generators, part, behind),
    }
}
