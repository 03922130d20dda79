//! A document as a tree whose lists have no spare capacity.
ghost use Rattle.std.specs.Prelude.{◌≡◌, ◌<◌, length, Some, None, Err, IfOk, OnOk};
ghost use Rattle.json.specs.Json.{value, items, members};
ghost use Rattle.json.specs.Value.{value_view, items_view, members_view};
ghost use Rattle.cargo_json.specs.declared.tree.Unread.TheVariants as unread;

use json::{Invalid, Reader, Token, Value};
use std::alloc::{AllocError, AllocFailed, Global};

/// The reason why no value was read.
#[derive(Clone, Copy, Debug, Drop)]
pub enum Unread {
    Invalid,
    Memory,
}

impl From<Invalid> for Unread {
    ghost use Rattle.cargo_json.specs.declared.tree.Unread.TheVariants as unread;

    ghost from_gives = { λ _ it. it ≡ unread.Invalid };

    fn from(_: Invalid) -> Unread {
        Unread::Invalid
    }
}

impl From<AllocError> for Unread {
    ghost use Rattle.cargo_json.specs.declared.tree.Unread.TheVariants as unread;

    ghost from_gives = { λ _ it. it ≡ unread.Memory };

    fn from(_: AllocError) -> Unread {
        Unread::Memory
    }
}

impl<T: Drop> From<AllocFailed<T>> for Unread {
    ghost use Rattle.cargo_json.specs.declared.tree.Unread.TheVariants as unread;

    ghost from_gives = { λ _ it. it ≡ unread.Memory };

    fn from(_: AllocFailed<T>) -> Unread {
        Unread::Memory
    }
}

/// Returns the same list without spare capacity.
fn exact<T: Drop>(alloc: Global, mut found: Vec<T>) -> Result<Vec<T>, AllocError>
    ensures { IfOk result (λ v. v.items ≡ found.items) }
{
    let mut exact = Vec::with_capacity(alloc, found.len())?;
    exact.append(&mut found)?;
    Ok(exact)
}

/// Reads the next value; arrays and objects may nest `depth` deep. The error is `Invalid` if the next tokens
/// are no such value, or `Memory`.
#[cycle(read)]
pub fn read<'a>(alloc: Global, reader: &mut Reader<'a>, depth: usize) -> Result<Value<'a>, Unread>
    ensures ok { IfOk result (λ v. value depth reader.old ≡ Some (value_view v, reader.new)) }
    ensures shorter { OnOk result (length reader.new < length reader.old) }
    ensures invalid { result ≡ Err unread.Invalid → value depth reader.old ≡ None }
{
    let token = reader.next().ok_or(Unread::Invalid)?;
    match token {
        Token::String(text) => Ok(Value::String(text)),
        Token::Number(text) => Ok(Value::Number(text)),
        Token::Bool(b) => Ok(Value::Bool(b)),
        Token::Null => Ok(Value::Null),
        Token::EndObject | Token::EndArray | Token::Key(_) | Token::Bad => Err(Unread::Invalid),
        Token::BeginArray => {
            if depth == 0 {
                return Err(Unread::Invalid);
            }
            Ok(Value::Array(read_items(alloc, reader, depth - 1)?))
        }
        Token::BeginObject => {
            if depth == 0 {
                return Err(Unread::Invalid);
            }
            Ok(Value::Object(read_members(alloc, reader, depth - 1)?))
        }
    }
}

/// Reads the items of an array, after its bracket.
#[cycle(read)]
fn read_items<'a>(
    alloc: Global,
    reader: &mut Reader<'a>,
    depth: usize,
) -> Result<Vec<Value<'a>>, Unread>
    ensures ok { IfOk result (λ v. items (value depth) (length reader.old) reader.old ≡ Some (items_view v.items, reader.new)) }
    ensures shorter { OnOk result (length reader.new < length reader.old) }
    ensures invalid { result ≡ Err unread.Invalid → items (value depth) (length reader.old) reader.old ≡ None }
{
    let mut found = Vec::new(alloc);
    'items: while !reader.take_end_array() {
        let item = read(alloc, reader, depth)?;
        found.push(item)?;
    }
    let found = exact(alloc, found)?;
    Ok(found)
}

/// Reads the members of an object, after its brace.
#[cycle(read)]
fn read_members<'a>(
    alloc: Global,
    reader: &mut Reader<'a>,
    depth: usize,
) -> Result<Vec<(&'a str, Value<'a>)>, Unread>
    ensures ok { IfOk result (λ v. members (value depth) (length reader.old) reader.old ≡ Some (members_view v.items, reader.new)) }
    ensures shorter { OnOk result (length reader.new < length reader.old) }
    ensures invalid { result ≡ Err unread.Invalid → members (value depth) (length reader.old) reader.old ≡ None }
{
    let mut found = Vec::new(alloc);
    'members: while let Some(name) = reader.next_key()? {
        let member = read(alloc, reader, depth)?;
        found.push((name, member))?;
    }
    let found = exact(alloc, found)?;
    Ok(found)
}
