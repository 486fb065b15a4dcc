//! What names stand for.
ghost use Rattle.std.specs.Prelude.{◌≡◌, cond};
ghost use Rattle.kl_base.specs.Fields.{field};
ghost use Rattle.kl_meaning.specs.Match.{same_name};
ghost use Rattle.kl_meaning.specs.Codes.{IsCalled};
ghost use Rattle.kl_infer.specs.Names.{IfCode, names, last_from, meant, meant_of, meant_first, defined};

use kl_base::{Label, Shared};
use kl_meaning::code_named;
use kl_rows::Scheme;
use kl_syntax::Decl;
use kl_type::Ty;

/// Variables with the numbers of their types: blocks, the innermost first. The last variable of a block is its innermost.
#[derive(Drop)]
pub enum Scope<'a> {
    Empty,
    Block(&'a [(Label, u64)], &'a Scope<'a>),
}

/// The innermost variable of the name.
pub fn variable(scope: &Scope, name: &Label) -> Option<u64>
    ensures { result ≡ field name.now (names scope.now) }
{
    match scope {
        Scope::Empty => None,
        Scope::Block(block, rest) => last_from(block, name, variable(rest, name)),
    }
}

// The last variable of the name, or else what is outside.
fn last_from(block: &[(Label, u64)], name: &Label, outside: Option<u64>) -> Option<u64>
    ensures { result ≡ last_from name.now block.now outside }
{
    let mut found = outside;
    'block: for i in 0..block.len() {
        if *name == block[i].0 {
            found = Some(block[i].1);
        }
    }
    found
}

/// The definitions so far, with their schemes, and the sources with their types.
#[derive(Drop)]
pub struct Known<'a> {
    pub defs: &'a [Decl],
    pub schemes: &'a [Shared<Scheme>],
    pub sources: &'a [(Label, Ty)],
}

/// What a name stands for that is no variable.
#[derive(Drop)]
pub enum Sense<'a> {
    Nothing,
    Value(&'a Shared<Scheme>),
    Function(&'a Shared<Scheme>),
    Source(&'a Ty),
    Primitive(u8),
}

/// The last definition of the name, else the first source, else the primitive.
pub fn stands_for<'a>(known: &Known<'a>, name: &Label) -> Sense<'a>
    ensures means { meant_of result ≡ meant known.now name.now }
    ensures called { IfCode (meant_of result) IsCalled }
{
    let defs = known.defs;
    let schemes = known.schemes;
    let mut found = first_sense(known.sources, name);
    'defs: for i in 0..defs.len().min(schemes.len()) {
        found = hiding(&defs[i], &schemes[i], name, found);
    }
    found
}

// What the name stands for behind a definition.
fn hiding<'a>(
    decl: &Decl,
    scheme: &'a Shared<Scheme>,
    name: &Label,
    outside: Sense<'a>,
) -> Sense<'a>
    ensures { meant_of result ≡ cond (same_name name.now decl.now.name.text)
        (defined decl.now.param scheme.now) (meant_of outside.entry) }
{
    if *name == decl.name.text {
        defined(decl, scheme)
    } else {
        outside
    }
}

fn defined<'a>(decl: &Decl, scheme: &'a Shared<Scheme>) -> Sense<'a>
    ensures { meant_of result ≡ defined decl.now.param scheme.now }
{
    match &decl.param {
        Some(_) => Sense::Function(scheme),
        None => Sense::Value(scheme),
    }
}

fn first_sense<'a>(sources: &'a [(Label, Ty)], name: &Label) -> Sense<'a>
    ensures means { meant_of result ≡ meant_first name.now sources.now }
    ensures called { IfCode (meant_of result) IsCalled }
{
    'sources: for source in sources {
        if *name == source.0 {
            return Sense::Source(&source.1);
        }
    }
    match code_named(name) {
        Some(code) => Sense::Primitive(code),
        None => Sense::Nothing,
    }
}
