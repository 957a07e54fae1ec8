ghost use Rattle.std.specs.Prelude.{◌≡◌, ◌++◌, IfOk, OnOk};
ghost use Rattle.report_text.specs.RunText.{result_line, run_text};

use crate::report_text::{put_calls, put_result, put_trace};
use dpkg_scenarios::Ending;
use feature_trees::put_tree;
use scenario_runs::Replayed;
use script_names::{Bytes, Memory};
use shown_texts::push_line;
use std::alloc::Global;

#[tactic(auto, unfolding(crate::specs::RunText::result_line))]
fn put_result_line(text: &mut Bytes, ending: Ending) -> Result<(), Memory>
    ensures { OnOk result (text.new ≡ text.old ++ result_line ending) }
{
    text.extend(b"result ")?;
    put_result(text, ending)?;
    text.extend(b"\n")
}

/// The text of one run: how it ended, its trace, the calls of scripts, and the tree that it left.
#[tactic(auto, unfolding(crate::specs::RunText::run_text))]
pub fn render_run(alloc: Global, replayed: &Replayed) -> Result<Bytes, Memory>
    ensures { IfOk result (λ text. text ≡ run_text replayed.now) }
{
    let mut text = Bytes::new(alloc);
    put_result_line(&mut text, replayed.ending)?;
    put_trace(&mut text, replayed.trace.as_slice())?;
    put_calls(&mut text, replayed.calls.as_slice())?;
    push_line(&mut text, b"after")?;
    put_tree(alloc, &mut text, &replayed.after)?;
    Ok(text)
}
