ghost use Rattle.std.specs.Prelude.{◌≡◌, false, IfOk};
ghost use Rattle.serde_json.specs.View.{view};
ghost use Rattle.serde_json.specs.Written.{compact_text, has_float};
ghost use Rattle.shown_texts.specs.Lines.{line};
ghost use Rattle.report_json.specs.ReportJson.{json_text};

use crate::values::report_value;
use feature_trees::Version;
use outcome_report::Report;
use script_names::{Bytes, Memory};
use serde_json::Value;
use std::alloc::Global;

// The text of a value that has no float, and a newline.
fn value_text(alloc: Global, value: &Value) -> Result<Bytes, Memory>
    ensures { let seen = view value.now in
        IfOk result (λ text. has_float seen ≡ false → text ≡ line (compact_text seen)) }
{
    let bytes = value.to_vec(alloc)?;
    let mut text = Bytes::from_vec(bytes);
    text.push(b'\n')?;
    Ok(text)
}

/// The JSON text of a report (RFC 8259), in one line.
pub fn render_json(alloc: Global, report: &Report) -> Result<Bytes, Memory>
    ensures { IfOk result (λ text. text ≡ json_text report.now) }
{
    let value = report_value(alloc, Version::Second, report)?;
    let text = value_text(alloc, &value)?;
    Ok(text)
}
