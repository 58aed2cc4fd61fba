//! The hexadecimal digits of a value that is read, in upper case.
ghost use Rattle.std.specs.Prelude.{◌≡◌, string_bytes, IfOk};
ghost use Rattle.std.specs.Char.{is_ascii_hexdigit};
ghost use Rattle.std.specs.List.{list_all};
ghost use Rattle.serde_json.specs.View.{items_view, members_view, view};
ghost use Rattle.zb_backup.specs.Raised.{raised, raised_items, raised_members, raised_text};

use serde_json::{Map, Value};
use std::alloc::{AllocError, Global};

/// Returns whether a text is hexadecimal digits alone, in either case.
fn has_digits_alone(text: &[u8]) -> bool
    ensures { result ≡ list_all is_ascii_hexdigit text.now }
{
    text.iter().all(|byte| byte.is_ascii_hexdigit())
}

/// Returns a text, in upper case where it is hexadecimal digits alone.
#[tactic(auto, unfolding(crate::specs::Raised::raised_text))]
fn raised_text(alloc: Global, text: &str) -> Result<String, AllocError>
    ensures { IfOk result (λ s. string_bytes s ≡ raised_text text.now) }
{
    if has_digits_alone(text.as_bytes()) {
        text.to_ascii_uppercase(alloc)
    } else {
        String::from_str(alloc, text)
    }
}

/// Returns a value, with each text in it that is hexadecimal digits alone in upper case.
///
/// The names of members stay as they are.
#[cycle(raised)]
pub(crate) fn raised(alloc: Global, value: &Value) -> Result<Value, AllocError>
    ensures { IfOk result (λ v. view v ≡ raised (view value.now)) }
{
    match value {
        Value::Null => Ok(Value::Null),
        Value::Bool(b) => Ok(Value::Bool(*b)),
        Value::Number(n) => Ok(Value::Number(*n)),
        Value::String(text) => Ok(Value::String(raised_text(alloc, text.as_str())?)),
        Value::Array(items) => Ok(Value::Array(raised_items(alloc, items)?)),
        Value::Object(members) => Ok(Value::Object(raised_members(alloc, members)?)),
    }
}

/// Returns the items of an array, each raised.
#[cycle(raised)]
fn raised_items(alloc: Global, items: &Vec<Value>) -> Result<Vec<Value>, AllocError>
    ensures { IfOk result (λ v. items_view v.items ≡ raised_items (items_view items.now.items)) }
{
    let mut copies = Vec::with_capacity(alloc, items.len())?;
    for item in items {
        copies.push(raised(alloc, item)?)?;
    }
    Ok(copies)
}

/// Returns the members of an object, the value of each raised.
#[cycle(raised)]
fn raised_members(
    alloc: Global,
    members: &Map<String, Value>,
) -> Result<Map<String, Value>, AllocError>
    ensures { IfOk result (λ m. members_view m.entries ≡ raised_members (members_view members.now.entries)) }
{
    let mut copies = Map::new(alloc);
    for (key, member) in members.iter() {
        let name = key.clone()?;
        drop(copies.insert(name, raised(alloc, member)?)?);
    }
    Ok(copies)
}
