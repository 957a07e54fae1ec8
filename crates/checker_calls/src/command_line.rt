ghost use Rattle.std.specs.Prelude.{◌≡◌};
ghost use Rattle.checker_calls.specs.CommandLine.{WordsOf};

use script_names::{List, Memory, Text};
use std::alloc::Global;
use std::env::Args;
use std::io::{self, ErrorKind};

/// The words of the command line: the arguments without the first, which names the program. Where the system gives an
/// argument that is no text in UTF-8, there are no words.
pub fn words_of(alloc: Global, args: io::Result<Args>) -> Result<List<Text>, Memory>
    ensures { WordsOf args result }
{
    let mut words = List::new(alloc);
    match args {
        Ok(all) => {
            for word in all.skip(1) {
                words.add(Text::from_string(word))?;
            }
            Ok(words)
        }
        Err(fault) if fault.kind() == ErrorKind::OutOfMemory => Err(Memory),
        Err(_) => Ok(words),
    }
}
