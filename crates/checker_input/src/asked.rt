use crate::task::Task;
use script_names::Text;

/// What a request asks for, as far as the files of packages go.
#[derive(Drop)]
pub enum Asked {
    /// A task, whose files have all been read.
    Task(Task),
    /// The outcome of each tree in a file, by the report in a file: neither has been read.
    Prediction { report: Text, trees: Text },
}
