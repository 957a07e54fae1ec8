// The members of values, by their keys.
ghost use Rattle.std.specs.Prelude.{◌≡◌, [], map, IfOk};
ghost use Rattle.std.specs.Option.{option_map};
ghost use Rattle.serde_json.specs.Find.{as_str};
ghost use Rattle.serde_json.specs.View.{view, items_view};
ghost use Rattle.report_reader.specs.ReportRead.{text_at, list_at, short, number_at, lines_onto, lines_at};

use script_names::{Bytes, Memory};
use serde_json::Value;
use shown_texts::push_line;
use std::alloc::Global;

// The text of a value.
pub(crate) fn text_of(value: &Value) -> Option<&[u8]>
    ensures { option_map (λ text. text.now) result ≡ as_str (view value.now) }
{
    match value.as_str() {
        Some(text) => Some(text.as_bytes()),
        None => None,
    }
}

// The text at a key.
pub(crate) fn text_at<'a>(value: &'a Value, key: &str) -> Option<&'a [u8]>
    ensures { option_map (λ text. text.now) result ≡ text_at key.now (view value.now) }
{
    match value.get(key) {
        Some(found) => text_of(found),
        None => None,
    }
}

// The list at a key.
pub(crate) fn list_at<'a>(value: &'a Value, key: &str) -> Option<&'a [Value]>
    ensures { option_map (λ list. items_view list.now) result ≡ list_at key.now (view value.now) }
{
    let list = match value.get(key) {
        Some(list) => list,
        None => return None,
    };
    match list.as_array() {
        Some(list) => Some(list.as_slice()),
        None => None,
    }
}

// The first number that is no `u32`.
const TOO_LARGE: u64 = 4_294_967_296;

// A number below 2 ^ 32.
pub(crate) fn short(number: u64) -> Option<u32>
    ensures { result ≡ short number }
{
    if number < TOO_LARGE {
        Some(number as u32)
    } else {
        None
    }
}

// The number below 2 ^ 32 at a key.
pub(crate) fn number_at(value: &Value, key: &str) -> Option<u32>
    ensures { result ≡ number_at key.now (view value.now) }
{
    match value.get(key).and_then(Value::as_u64) {
        Some(number) => short(number),
        None => None,
    }
}

// The text of lines.
fn lines_text(alloc: Global, list: &[Value]) -> Result<Option<Bytes>, Memory>
    ensures { IfOk result (λ found. found ≡ lines_onto [] (items_view list.now)) }
{
    let mut text = Bytes::new(alloc);
    for value in list {
        let content = match text_of(value) {
            Some(content) => content,
            None => return Ok(None),
        };
        push_line(&mut text, content)?;
    }
    Ok(Some(text))
}

// The text of the lines at a key.
pub(crate) fn lines_at(alloc: Global, value: &Value, key: &str) -> Result<Option<Bytes>, Memory>
    ensures { IfOk result (λ found. found ≡ lines_at key.now (view value.now)) }
{
    match list_at(value, key) {
        Some(list) => lines_text(alloc, list),
        None => Ok(None),
    }
}
