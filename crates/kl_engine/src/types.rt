//! What `types` does with a program's text: it lists the principal types of its declarations.
ghost use Rattle.std.specs.Prelude.{◌≡◌, ◌≤◌, ◌++◌, ℕ, Bool, List, All, IfOk, codes, length, map};
ghost use Rattle.std.specs.List.{zip};
ghost use Rattle.kl_rows.specs.Schemes.{IsScheme};
ghost use Rattle.kl_syntax.specs.View.{view, decls_of};
ghost use Rattle.kl_ask.specs.Driver.{State};
ghost use Rattle.kl_outside.specs.Files.{FilesState};
ghost use Rattle.kl_type.specs.Ground.{IsProper};
ghost use Rattle.kl_engine.specs.Answering.{DoesText, PrintsPage};
ghost use Rattle.kl_engine.specs.Faults.{ending};
ghost use Rattle.kl_engine.specs.Outside.{outside_of};
ghost use Rattle.kl_engine.specs.Running.{DoneWith, ListsLine, ListsFront};
ghost use Rattle.kl_engine.specs.Verdict.{named_schemes, scheme_lines};
ghost use Rattle.kl_engine.specs.declared.top.Purpose.TheVariants.{Types};

use crate::fault::Fault;
use crate::read::{infer_over, read_over};
use kl_base::Shared;
use kl_infer::{Typed, print_scheme};
use kl_outside::{Sink, Stop, write_whole};
use kl_rows::Scheme;
use kl_scope::Scoped;
use kl_sources::Source;
use kl_syntax::Decl;
use std::alloc::{AllocError, Global};

/// Lists the types of the program that a text is, over these sources.
///
/// # Errors
/// The first that is wrong: the text is no program in scope, the term of a declaration is too large, a declaration has no
/// type, the text of a scheme is too long. `Write`, where the sink refused a line; want of memory.
pub fn types<S: Sink>(
    alloc: Global,
    text: &[u8],
    sources: &[Source],
    out: &mut S,
) -> Result<(), Fault>
    requires few { length text.now ≤ 65536 }
    requires proper { All (λ s. IsProper s.ty) sources.now }
    ensures { (files : FilesState) (ds : List State) → DoesText sources.now Types text.now (ending result)
        (outside_of files ds (S.state out.old)) (outside_of files ds (S.state out.new)) }
{
    match read_over(alloc, text, sources) {
        Ok(scoped) => list_types(alloc, &scoped, sources, out),
        Err(fault) => Err(fault),
    }
}

// Lists the types of a program in scope.
fn list_types<S: Sink>(
    alloc: Global,
    scoped: &Scoped,
    sources: &[Source],
    out: &mut S,
) -> Result<(), Fault>
    requires { All (λ s. IsProper s.ty) sources.now }
    ensures { (marks : ℕ → Bool) (files : FilesState) (ds : List State) → DoneWith sources.now marks Types
        (decls_of scoped.now.program.defs) (view scoped.now.program.last) (ending result)
        (outside_of files ds (S.state out.old)) (outside_of files ds (S.state out.new)) }
{
    match infer_over(alloc, scoped, sources) {
        Ok(typed) => list(alloc, scoped, &typed, out),
        Err(fault) => Err(fault),
    }
}

// Prints a line for each declaration, and for the last expression.
fn list<S: Sink>(alloc: Global, scoped: &Scoped, typed: &Typed, out: &mut S) -> Result<(), Fault>
    requires schemes { All IsScheme typed.now.schemes }
    requires result { IsScheme typed.now.result }
    ensures { PrintsPage (scheme_lines (named_schemes (decls_of scoped.now.program.defs) typed.now)) (ending result)
        (S.state out.old) (S.state out.new) }
{
    let defs = scoped.program().defs.slice();
    match list_definitions(alloc, defs, typed.schemes.slice(), out) {
        Ok(()) => list_one(alloc, b"it", &typed.result, out),
        Err(fault) => Err(fault),
    }
}

fn list_definitions<S: Sink>(
    alloc: Global,
    defs: &[Decl],
    schemes: &[Shared<Scheme>],
    out: &mut S,
) -> Result<(), Fault>
    requires { All IsScheme schemes.now }
    ensures { ListsFront (zip (map (λ d. d.name.text) defs.now) schemes.now) result (S.state out.old) (S.state out.new) }
{
    'lines: for i in 0..defs.len().min(schemes.len()) {
        match list_one(alloc, defs[i].name.text.slice(), schemes[i].get(), out) {
            Ok(()) => {}
            Err(fault) => return Err(fault),
        }
    }
    Ok(())
}

fn list_one<S: Sink>(alloc: Global, name: &[u8], scheme: &Scheme, out: &mut S) -> Result<(), Fault>
    requires { IsScheme scheme.now }
    ensures { ListsLine (name.now, scheme.now) result (S.state out.old) (S.state out.new) }
{
    match print_scheme(alloc, scheme) {
        Ok(Some(text)) => match line(alloc, name, text.slice()) {
            Ok(line) => match write_whole(out, &line) {
                Ok(()) => Ok(()),
                Err(Stop::Failed) => Err(Fault::Write),
                Err(Stop::NoMemory) => Err(Fault::NoMemory),
            },
            Err(_) => Err(Fault::NoMemory),
        },
        Ok(None) => Err(Fault::SchemeBytes),
        Err(_) => Err(Fault::NoMemory),
    }
}

// A name and the text of a scheme.
fn line(alloc: Global, name: &[u8], text: &[u8]) -> Result<Vec<u8>, AllocError>
    ensures { IfOk result (λ line. line.items ≡ name.now ++ codes " : " ++ text.now ++ codes "\n") }
{
    let mut line = Vec::from_slice(alloc, name)?;
    line.extend_from_slice(b" : ")?;
    line.extend_from_slice(text)?;
    line.extend_from_slice(b"\n")?;
    Ok(line)
}
