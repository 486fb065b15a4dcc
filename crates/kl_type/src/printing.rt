//! The text of a type.
ghost use Rattle.std.specs.Prelude.{◌≡◌, ◌++◌, IfOk, OnOk, map};
ghost use Rattle.kl_value.specs.Written.{with_commas};
ghost use Rattle.kl_type.specs.Written.{type_text, field_text};

use crate::ground::Ty;
use kl_base::{Label, NoMemory, Text};
use kl_value::{closing, opening, separator};
use std::alloc::Global;

/// The text of the type: `bool`, `int`, `string`, `[title: string, vol: int]`, `<chr: int>`, `{int}`, `{|int|}` or
/// `[|int|]`, with `: ` behind a label, `, ` between fields, and nothing else between tokens. The labels of a proper
/// type stand in rising order.
///
/// # Errors
/// Want of memory.
pub fn print_type(alloc: Global, t: &Ty) -> Result<Text, NoMemory>
    ensures { IfOk result (λ text. text ≡ type_text t.now) }
{
    let mut bytes = Vec::new(alloc);
    write_type(t, &mut bytes)?;
    Ok(Text::of(bytes))
}

#[cycle(write)]
#[tactic(auto, using(crate::proofs::WrittenLemmas::type_texts))]
fn write_type(t: &Ty, out: &mut Vec<u8>) -> Result<(), NoMemory>
    ensures { OnOk result (out.new.items ≡ out.old.items ++ type_text t.now) }
{
    match t {
        Ty::Bool => put(b"bool", out),
        Ty::Int => put(b"int", out),
        Ty::Str => put(b"string", out),
        Ty::Rec(fields) => {
            put(b"[", out)?;
            write_fields(fields.slice(), out)?;
            put(b"]", out)
        }
        Ty::Var(fields) => {
            put(b"<", out)?;
            write_fields(fields.slice(), out)?;
            put(b">", out)
        }
        Ty::Coll(kind, item) => {
            put(opening(*kind), out)?;
            write_type(item.get(), out)?;
            put(closing(*kind), out)
        }
    }
}

// The fields with a comma and a space between them.
#[cycle(write)]
fn write_fields(fields: &[(Label, Ty)], out: &mut Vec<u8>) -> Result<(), NoMemory>
    ensures { OnOk result (out.new.items ≡ out.old.items ++ with_commas (map field_text fields.now)) }
{
    'fields: for (i, field) in fields.iter().enumerate() {
        put(separator(i), out)?;
        put(field.0.slice(), out)?;
        put(b": ", out)?;
        write_type(&field.1, out)?;
    }
    Ok(())
}

fn put(piece: &[u8], out: &mut Vec<u8>) -> Result<(), NoMemory>
    ensures { OnOk result (out.new.items ≡ out.old.items ++ piece.now) }
{
    out.extend_from_slice(piece)?;
    Ok(())
}
