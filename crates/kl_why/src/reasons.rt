//! Why a part has no type, in words.
use crate::place::put;
use kl_base::{NoMemory, Text};
use std::alloc::Global;
use strsim::generic_levenshtein;

// How much of the text of a type is told.
const WIDTH: usize = 240;

// The pieces of a reason, one behind the other.
fn joined(alloc: Global, pieces: &[&[u8]]) -> Result<Text, NoMemory> {
    let mut text = Vec::new(alloc);
    for piece in pieces {
        put(piece, &mut text)?;
    }
    Ok(Text::of(text))
}

// The front of the text of a type, where it is long.
fn cut(ty: &Text) -> &[u8] {
    let bytes = ty.slice();
    &bytes[..bytes.len().min(WIDTH)]
}

/// Of a condition.
pub fn condition(alloc: Global, ty: &Text) -> Result<Text, NoMemory> {
    joined(
        alloc,
        &[b"a condition is a bool, and this is of the type ", cut(ty)],
    )
}

/// Of the two branches of an `if`.
pub fn branches<'a>(alloc: Global, left: &'a Text, right: &'a Text) -> Result<Text, NoMemory> {
    joined(
        alloc,
        &[
            b"both branches have one type, and these are of the types ",
            cut(left),
            b" and ",
            cut(right),
        ],
    )
}

/// Of `not` and of the unary minus.
pub fn operand(alloc: Global, is_not: bool, ty: &Text) -> Result<Text, NoMemory> {
    let takes: &[u8] = if is_not {
        b"not takes a bool"
    } else {
        b"- takes an int"
    };
    joined(alloc, &[takes, b", and this is of the type ", cut(ty)])
}

/// Of two operands.
pub fn sides(alloc: Global, operator: &[u8], left: &Text, right: &Text) -> Result<Text, NoMemory> {
    let mut text = Vec::from_slice(alloc, operator)?;
    put(takes_of(operator), &mut text)?;
    put(b", and these are of the types ", &mut text)?;
    put(cut(left), &mut text)?;
    put(b" and ", &mut text)?;
    put(cut(right), &mut text)?;
    Ok(Text::of(text))
}

fn takes_of(operator: &[u8]) -> &'static [u8] {
    if operator == b"and".as_slice() || operator == b"or".as_slice() {
        b" takes two of bool"
    } else if operator == b"++".as_slice() {
        b" takes two collections of one type"
    } else if operator == b"^".as_slice() {
        b" takes two of string"
    } else if operator == b"+".as_slice()
        || operator == b"-".as_slice()
        || operator == b"*".as_slice()
    {
        b" takes two of int"
    } else {
        b" takes two of one type"
    }
}

/// Of what a generator draws from.
pub fn drawn(alloc: Global, ty: &Text) -> Result<Text, NoMemory> {
    let front: &[u8] = if is_collection(ty) {
        b"the pattern takes no item of a collection of the type "
    } else {
        b"a generator draws from a collection, and this is of the type "
    };
    joined(alloc, &[front, cut(ty)])
}

fn is_collection(ty: &Text) -> bool {
    let bytes = ty.slice();
    bytes.starts_with(b"{")
        || bytes.starts_with(b"[|")
        || bytes.starts_with(b"%")
        || bytes.starts_with(b"'")
}

/// Of a pattern that has to take a value.
pub fn matched(alloc: Global, ty: &Text) -> Result<Text, NoMemory> {
    joined(
        alloc,
        &[b"the pattern takes no value of the type ", cut(ty)],
    )
}

/// Of parts that have to go together.
pub fn items(alloc: Global, types: &[Text]) -> Result<Text, NoMemory> {
    listed(alloc, b"", b"the parts do not go together: ", types)
}

/// Of a call.
pub fn call(alloc: Global, name: &[u8], types: &[Text]) -> Result<Text, NoMemory> {
    listed(alloc, name, b" does not take this: ", types)
}

fn listed(alloc: Global, name: &[u8], words: &[u8], types: &[Text]) -> Result<Text, NoMemory> {
    let mut text = Vec::from_slice(alloc, name)?;
    put(words, &mut text)?;
    let mut is_first = true;
    for ty in types {
        if !is_first {
            put(b", ", &mut text)?;
        }
        put(cut(ty), &mut text)?;
        is_first = false;
    }
    Ok(Text::of(text))
}

/// Of a field, with the nearest label that there is.
pub fn field<'a>(alloc: Global, label: &'a [u8], ty: &'a Text) -> Result<Text, NoMemory> {
    let bytes = ty.slice();
    if !bytes.starts_with(b"[") || bytes.starts_with(b"[|") {
        return joined(
            alloc,
            &[
                b"only a record has fields, and this is of the type ",
                cut(ty),
            ],
        );
    }
    let front: &[u8] = b"there is no field ";
    match nearest(alloc, label, bytes)? {
        Some(near) => joined(
            alloc,
            &[front, label, b" in ", cut(ty), b"; the nearest is ", near],
        ),
        None => joined(alloc, &[front, label, b" in ", cut(ty)]),
    }
}

/// Of the branches of a `case`.
pub fn lacking(
    alloc: Global,
    branches: &[u8],
    ty: &Text,
    has_other: bool,
) -> Result<Text, NoMemory> {
    let bytes = ty.slice();
    if !has_other && bytes.starts_with(b"<") {
        let mut from = 0;
        for _ in 0..bytes.len() {
            let Some((label, next)) = label_from(bytes, from) else {
                break;
            };
            if !takes(branches, label) {
                return joined(
                    alloc,
                    &[b"no branch takes the label ", label, b" of ", cut(ty)],
                );
            }
            from = next;
        }
    }
    joined(
        alloc,
        &[
            b"the branches do not go together, or with what they look at, which is of the type ",
            cut(ty),
        ],
    )
}

// Whether a branch of this text has the label.
fn takes(branches: &[u8], label: &[u8]) -> bool {
    for at in 0..branches.len() {
        if branches[at] == b'<' && starts_with_word(&branches[at + 1..], label) {
            return true;
        }
    }
    false
}

// Whether a text begins with blanks and just this word.
fn starts_with_word(text: &[u8], word: &[u8]) -> bool {
    let from = text
        .iter()
        .take_while(|byte| matches!(**byte, b' ' | b'\t' | b'\n' | b'\r'))
        .count();
    let rest = &text[from.min(text.len())..];
    rest.starts_with(word) && ends_there(rest, word.len())
}

// Whether a word that begins a text ends behind so many bytes.
fn ends_there(text: &[u8], length: usize) -> bool {
    match text.get(length) {
        Some(byte) => !is_word_byte(*byte),
        None => true,
    }
}

fn is_word_byte(byte: u8) -> bool {
    byte.is_ascii_alphanumeric() || byte == b'_'
}

// The next label in the outermost brackets of the text of a type, from a byte on, and the byte behind it.
fn label_from(bytes: &[u8], from: usize) -> Option<(&[u8], usize)> {
    let mut depth: usize = 0;
    let mut word = 0;
    for at in 0..bytes.len() {
        let byte = bytes[at];
        if matches!(byte, b'[' | b'{' | b'<' | b'(') {
            depth = depth.saturating_add(1);
        } else if matches!(byte, b']' | b'}' | b'>' | b')') {
            depth = depth.saturating_sub(1);
        } else if byte == b':' && depth == 1 && at >= from && word <= at {
            return Some((&bytes[word..at], at + 1));
        }
        if !is_word_byte(byte) {
            word = at + 1;
        }
    }
    None
}

// The label of a record's type that is nearest by spelling, with at most half of the letters changed.
fn nearest<'a>(alloc: Global, label: &[u8], bytes: &'a [u8]) -> Result<Option<&'a [u8]>, NoMemory> {
    let mut found = None;
    let mut least = (label.len() / 2).max(1).saturating_add(1);
    let mut from = 0;
    for _ in 0..bytes.len() {
        let Some((other, next)) = label_from(bytes, from) else {
            break;
        };
        let distance = generic_levenshtein(alloc, label, other)?;
        if distance < least {
            least = distance;
            found = Some(other);
        }
        from = next;
    }
    Ok(found)
}
