//! A value as JSON text.
ghost use Rattle.std.specs.Prelude.{◌≡◌, ◌≤◌, ◌∷◌, [], ◌++◌, IfOk, OnOk, Some, Err};
ghost use Rattle.std.specs.Str.{IsUtf8};
ghost use Rattle.json.specs.Json.{document, max_depth};
ghost use Rattle.json.specs.Print.{print};
ghost use Rattle.json.specs.Token.{begin_array, begin_object, key, string};
ghost use Rattle.json.specs.Tree.{json_tokens, items_tokens, members_tokens, depth};
ghost use Rattle.kl_json.specs.Written.{json_of, items_json, fields_json, IsUnicode, AreUnicode, HaveUnicode};
ghost use Rattle.kl_json.specs.declared.written.WriteError.TheVariants.{NoUnicode};

use json::Writer;
use kl_base::Label;
use kl_value::Value;
use std::alloc::{AllocError, Global};
use std::str;

/// Why a value is not written as JSON.
#[derive(Clone, Copy, Debug, Drop, PartialEq, Eq)]
pub enum WriteError {
    /// A text in it is no UTF-8.
    NoUnicode,
    NoMemory,
}

impl From<AllocError> for WriteError {
    ghost use Rattle.std.specs.Prelude.{◌≡◌};
    ghost use Rattle.kl_json.specs.declared.written.WriteError.TheVariants.{NoMemory};

    ghost from_gives = { λ _ e. e ≡ NoMemory };

    fn from(_: AllocError) -> WriteError {
        WriteError::NoMemory
    }
}

/// The JSON text of a value, with no white space in it: records and variants are objects, collections arrays of their
/// items in the order in which these stand. Where it nests no deeper than 128 it reads back as this JSON value.
///
/// # Errors
/// - `NoUnicode`: a text in it is no UTF-8.
/// - `NoMemory`: want of memory.
pub fn json_text(alloc: Global, v: &Value) -> Result<Vec<u8>, WriteError>
    ensures text { IfOk result (λ bytes. bytes.items ≡ print (json_tokens (json_of v.now))) }
    ensures reads_back { IfOk result (λ bytes. depth (json_of v.now) ≤ max_depth → document bytes.items ≡ Some (json_of v.now)) }
    ensures unicode { OnOk result (IsUnicode (json_of v.now)) }
    ensures refused { result ≡ Err NoUnicode → IsUnicode (json_of v.now) → ⊥ }
{
    let mut writer = Writer::new(Vec::new(alloc));
    match write_value(&mut writer, v) {
        Ok(()) => Ok(writer.into_inner()),
        Err(error) => Err(error),
    }
}

#[cycle(write)]
#[tactic(auto, using(crate::proofs::WrittenLemmas::jsons))]
fn write_value(writer: &mut Writer, v: &Value) -> Result<(), WriteError>
    ensures ok { OnOk result (writer.new.tokens ≡ writer.old.tokens ++ json_tokens (json_of v.now)) }
    ensures before { writer.new.before ≡ writer.old.before }
    ensures unicode { OnOk result (IsUnicode (json_of v.now)) }
    ensures refused { result ≡ Err NoUnicode → IsUnicode (json_of v.now) → ⊥ }
{
    match v {
        Value::Bool(b) => {
            writer.boolean(*b)?;
            Ok(())
        }
        Value::Int(n) => {
            writer.i64(*n)?;
            Ok(())
        }
        Value::Text(text) => write_text(writer, text.slice()),
        Value::Rec(fields) => write_fields(writer, fields.slice()),
        Value::Inj(label, inner) => {
            writer.begin_object()?;
            write_label(writer, label)?;
            write_value(writer, inner.get())?;
            writer.end_object()?;
            Ok(())
        }
        Value::Set(items) => write_items(writer, items.slice()),
        Value::Bag(items) => write_items(writer, items.slice()),
        Value::List(items) => write_items(writer, items.slice()),
    }
}

#[cycle(write)]
#[tactic(auto, using(crate::proofs::WrittenLemmas::jsons))]
fn write_items(writer: &mut Writer, items: &[Value]) -> Result<(), WriteError>
    ensures ok { OnOk result (writer.new.tokens ≡ writer.old.tokens ++ begin_array ∷ items_tokens (items_json items.now)) }
    ensures before { writer.new.before ≡ writer.old.before }
    ensures unicode { OnOk result (AreUnicode (items_json items.now)) }
    ensures refused { result ≡ Err NoUnicode → AreUnicode (items_json items.now) → ⊥ }
{
    writer.begin_array()?;
    for item in items {
        write_value(writer, item)?;
    }
    writer.end_array()?;
    Ok(())
}

#[cycle(write)]
#[tactic(auto, using(crate::proofs::WrittenLemmas::jsons))]
fn write_fields(writer: &mut Writer, fields: &[(Label, Value)]) -> Result<(), WriteError>
    ensures ok { OnOk result (writer.new.tokens ≡ writer.old.tokens ++ begin_object ∷ members_tokens (fields_json fields.now)) }
    ensures before { writer.new.before ≡ writer.old.before }
    ensures unicode { OnOk result (HaveUnicode (fields_json fields.now)) }
    ensures refused { result ≡ Err NoUnicode → HaveUnicode (fields_json fields.now) → ⊥ }
{
    writer.begin_object()?;
    for field in fields {
        write_label(writer, &field.0)?;
        write_value(writer, &field.1)?;
    }
    writer.end_object()?;
    Ok(())
}

fn write_label(writer: &mut Writer, label: &Label) -> Result<(), WriteError>
    ensures ok { OnOk result (writer.new.tokens ≡ writer.old.tokens ++ key label.now ∷ []) }
    ensures before { writer.new.before ≡ writer.old.before }
    ensures unicode { OnOk result (IsUtf8 label.now) }
    ensures refused { result ≡ Err NoUnicode → IsUtf8 label.now → ⊥ }
{
    match str::from_utf8(label.slice()) {
        Ok(name) => {
            writer.key(name)?;
            Ok(())
        }
        Err(_) => Err(WriteError::NoUnicode),
    }
}

fn write_text(writer: &mut Writer, text: &[u8]) -> Result<(), WriteError>
    ensures ok { OnOk result (writer.new.tokens ≡ writer.old.tokens ++ string text.now ∷ []) }
    ensures before { writer.new.before ≡ writer.old.before }
    ensures unicode { OnOk result (IsUtf8 text.now) }
    ensures refused { result ≡ Err NoUnicode → IsUtf8 text.now → ⊥ }
{
    match str::from_utf8(text) {
        Ok(text) => {
            writer.string(text)?;
            Ok(())
        }
        Err(_) => Err(WriteError::NoUnicode),
    }
}
