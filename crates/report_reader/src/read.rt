ghost use Rattle.std.specs.Prelude.{◌≡◌, ◌↔◌, ◌≤◌, false, IfOk, IsTrue};
ghost use Rattle.serde_json.specs.Data.{depth};
ghost use Rattle.serde_json.specs.Read.{max_depth};
ghost use Rattle.serde_json.specs.View.{view};
ghost use Rattle.serde_json.specs.Written.{has_float};
ghost use Rattle.report_json.specs.ReportJson.{json_of};
ghost use Rattle.report_reader.specs.JsonAnswers.{Finds, ReadsReport};
ghost use Rattle.report_reader.specs.ReportRead.{version_of, version_in};

use crate::members::number_at;
use crate::outcomes::report_in;
use feature_trees::Version;
use outcome_report::Report;
use report_json::{has_text, report_value};
use script_names::{Copied, Memory};
use serde_json::Value;
use std::alloc::Global;

/// Why a text gave no report.
#[derive(Clone, Copy, Debug, PartialEq, Eq)]
pub enum JsonFault {
    /// The bytes are no JSON text.
    Json,
    /// The value of the text is no report's in either version.
    Shape,
    Memory,
}

impl Copied for JsonFault {
    fn copy(&self, _alloc: Global) -> Result<JsonFault, Memory> {
        Ok(*self)
    }
}

// Whether two values are the same, of which the second has no float.
fn same_value(alloc: Global, a: &Value, b: &Value) -> Result<bool, Memory>
    requires first { depth (view a.now) ≤ max_depth }
    requires second { depth (view b.now) ≤ max_depth }
    ensures same { IfOk result (λ same. IsTrue same → view a.now ≡ view b.now) }
    ensures all { IfOk result
        (λ same. has_float (view b.now) ≡ false → view a.now ≡ view b.now → IsTrue same) }
{
    let first = a.to_vec(alloc)?;
    let second = b.to_vec(alloc)?;
    Ok(first.as_slice() == second.as_slice())
}

// Whether the report's value in the version is this one.
fn has_value(
    alloc: Global,
    version: Version,
    report: &Report,
    value: &Value,
) -> Result<bool, Memory>
    requires { depth (view value.now) ≤ max_depth }
    ensures { IfOk result (λ has. IsTrue has ↔ (json_of version report.now ≡ view value.now)) }
{
    let again = report_value(alloc, version, report)?;
    same_value(alloc, value, &again)
}

// The version of a number.
fn version_of(number: u32) -> Option<Version>
    ensures { result ≡ version_of number }
{
    if number == 1 {
        return Some(Version::First);
    }
    if number == 2 {
        return Some(Version::Second);
    }
    None
}

// The version that a value names.
fn version_in(value: &Value) -> Option<Version>
    ensures { result ≡ version_in (view value.now) }
{
    match number_at(value, "colis") {
        Some(number) => version_of(number),
        None => None,
    }
}

// The report that has this value.
fn find_report(alloc: Global, value: &Value) -> Result<Option<Report>, Memory>
    requires { depth (view value.now) ≤ max_depth }
    ensures { IfOk result (Finds (view value.now)) }
{
    let version = match version_in(value) {
        Some(version) => version,
        None => return Ok(None),
    };
    let report = match report_in(alloc, value)? {
        Some(report) => report,
        None => return Ok(None),
    };
    let fits = has_text(version, &report);
    if !fits {
        return Ok(None);
    }
    match has_value(alloc, version, &report, value)? {
        true => Ok(Some(report)),
        false => Ok(None),
    }
}

/// The report that a JSON text tells (RFC 8259): a whole one, with outcomes numbered from 1, replays that agree, and
/// scenarios that are different and in their order. The text is of either version; in the first, one kind stood for
/// the four special ones, and is read as a pipe. `Json` exactly where the bytes are no JSON text, and `Shape` exactly
/// where they are one whose value is in neither version that of such a report with paths of at most 4,096 names.
pub fn read_json(alloc: Global, text: &[u8]) -> Result<Report, JsonFault>
    ensures { ReadsReport text.now result }
{
    let value = match Value::from_slice(alloc, text) {
        Ok(value) => value,
        Err(error) => {
            if error.is_memory() {
                return Err(JsonFault::Memory);
            }
            return Err(JsonFault::Json);
        }
    };
    match find_report(alloc, &value) {
        Ok(Some(report)) => Ok(report),
        Ok(None) => Err(JsonFault::Shape),
        Err(_) => Err(JsonFault::Memory),
    }
}
