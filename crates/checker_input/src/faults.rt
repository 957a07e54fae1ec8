use crate::script::ScriptFault;
use script_names::{Copied, Memory, Text};
use std::alloc::Global;

/// What is wrong with a file. Lines are counted from 1.
#[derive(Clone, Copy, Debug, PartialEq, Eq)]
pub enum FileFault {
    /// It is not there.
    Missing,
    /// It has more bytes than it may have at most.
    TooLong { most: usize },
    /// Its text is no accepted script.
    Script(ScriptFault),
    /// The version, or the name, in this line of a control file is none.
    Version { line: u64 },
    /// A line of a list of files, a list of configuration files, a base, a tree or a file of trees is at fault, and why.
    Line { line: u64, why: u8 },
    /// It is no report by which trees can be told apart: 1, it is no JSON text (RFC 8259); 2, one that is no report; 3,
    /// a report with a clause that is not in solved order.
    Report { why: u8 },
}

impl Copied for FileFault {
    fn copy(&self, _alloc: Global) -> Result<FileFault, Memory> {
        Ok(*self)
    }
}

/// A file that is refused: its name, and what is wrong with it.
#[derive(Debug, Drop)]
pub struct InputRefusal {
    pub file: Text,
    pub fault: FileFault,
}

impl Copied for InputRefusal {
    fn copy(&self, alloc: Global) -> Result<InputRefusal, Memory> {
        let file = self.file.copy(alloc)?;
        Ok(InputRefusal {
            file,
            fault: self.fault,
        })
    }
}
