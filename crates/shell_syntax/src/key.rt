ghost use Rattle.std.specs.Prelude.{◌≡◌};

use script_names::{Bytes, Copied, Memory};
use std::alloc::Global;

/// What a parameter expansion names (XCU 2.5 Parameters and Variables).
#[derive(Drop)]
pub enum Key {
    /// A variable, by its name (XCU 2.5.3 Shell Variables).
    Named(Bytes),
    /// A positional parameter, by its number, from 1 on (XCU 2.5.1 Positional Parameters).
    Arg(u8),
    /// `#`, how many positional parameters there are (XCU 2.5.2 Special Parameters).
    Count,
}

impl Copied for Key {
    fn copy(&self, alloc: Global) -> Result<Key, Memory> {
        match self {
            Key::Named(name) => Ok(Key::Named(name.copy(alloc)?)),
            Key::Arg(number) => Ok(Key::Arg(*number)),
            Key::Count => Ok(Key::Count),
        }
    }
}
