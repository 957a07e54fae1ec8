// The lines of a text, one after the other, and those before the next that begins a tree.
ghost use Rattle.std.specs.Prelude.{◌≡◌, ◌<◌, length, IfSome};
ghost use Rattle.feature_trees.specs.TreeLines.{text_lines};
ghost use Rattle.tree_predictions.specs.Blocks.{first_newline, AreAtHead, CutsLine, IsFront, IsBlock};
ghost use Rattle.tree_predictions.specs.NamedTrees.{is_head, head_name};

/// Whether a line begins a tree.
pub(crate) fn is_head(line: &[u8]) -> bool
    ensures { result ≡ is_head line.now }
{
    line == b"tree".as_slice() || line.starts_with(b"tree ")
}

/// What a line that begins a tree has as its name.
pub(crate) fn head_name(line: &[u8]) -> &[u8]
    ensures { result.now ≡ head_name line.now }
{
    if line.len() > 5 {
        return &line[5..];
    }
    &line[line.len()..]
}

// Where the first newline of a text stands.
fn first_newline(text: &[u8]) -> Option<usize>
    ensures at { result ≡ first_newline text.now }
    ensures within { IfSome result (λ at. at < length text.now) }
{
    text.iter().position(|byte| *byte == b'\n')
}

/// The first line of a text, without its newline, and what stands behind it.
pub(crate) fn cut_line(text: &[u8]) -> (&[u8], &[u8])
    requires { 0 < length text.now }
    ensures { CutsLine text.now result.0.now result.1.now }
{
    match first_newline(text) {
        Some(at) => (&text[..at], &text[at + 1..]),
        None => (text, &text[text.len()..]),
    }
}

/// The lines of a text before the first that begins a tree: their own text, how many they are, and what stands behind.
#[derive(Clone, Copy)]
pub(crate) struct Block<'a> {
    pub(crate) text: &'a [u8],
    pub(crate) lines: u64,
    pub(crate) behind: &'a [u8],
}

/// The lines of a text before the first that begins a tree.
pub(crate) fn cut_block(text: &[u8]) -> Block<'_>
    ensures { IsBlock text.now result }
{
    let mut left = text;
    let mut lines = 0u64;
    while !left.is_empty() {
        let (line, rest) = cut_line(left);
        if is_head(line) {
            return block_before(text, lines, left);
        }
        left = rest;
        lines += 1;
    }
    block_before(text, lines, left)
}

// The lines before what stands behind them.
fn block_before<'a>(text: &'a [u8], lines: u64, behind: &'a [u8]) -> Block<'a>
    requires front { IsFront text.now lines behind.now }
    requires next { AreAtHead (text_lines behind.now) }
    ensures { IsBlock text.now result }
{
    let end = text.len() - behind.len();
    Block {
        text: &text[..end],
        lines,
        behind,
    }
}
