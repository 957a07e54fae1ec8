/// Of a command's first two words, which are spelled out in the script: such a word stands for its own bytes, by plain
/// and quoted parts alone (POSIX.1-2017, XCU 2.2 Quoting), and has no expansion (XCU 2.6). False where there is no such
/// word.
#[derive(Clone, Copy, Debug, PartialEq, Eq)]
pub struct Spelled {
    /// The word of the command's name.
    pub name: bool,
    /// The word of its first operand.
    pub operand: bool,
}
