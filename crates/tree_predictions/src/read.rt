ghost use Rattle.std.specs.Prelude.{◌≡◌, ◌+◌, ◌<◌, ◌^◌, length, false, All, IfOk};
ghost use Rattle.std.specs.List.{list_any};
ghost use Rattle.feature_trees.specs.Sound.{IsTree};
ghost use Rattle.feature_trees.specs.TreeLines.{text_lines};
ghost use Rattle.tree_predictions.specs.declared.fault.TreesFault.TheVariants.{Line};
ghost use Rattle.tree_predictions.specs.NamedTrees.{is_head, head_name, begun, and_then, with_lines};
ghost use Rattle.tree_predictions.specs.NamedTrees.{trees_of, IsAnswer};

use crate::fault::TreesFault;
use crate::lines::{cut_block, cut_line, head_name};
use crate::named_tree::{NamedTree, TreeList, is_tree_name};
use feature_trees::{TreeFault, read_tree};
use script_names::List;
use std::alloc::Global;

/// The named trees of a text, in their order: of each a line `tree NAME`, NAME being 1 to 255 bytes, and then the lines
/// of the tree's own text, which says nothing of the root; the last line may lack its newline. A text of no bytes has
/// none. The least line at fault is answered.
pub fn read_trees(alloc: Global, text: &[u8]) -> Result<List<NamedTree>, TreesFault>
    ensures reads { IsAnswer (trees_of text.now) result }
    ensures trees { IfOk result (All (λ named. IsTree named.tree)) }
{
    let before = cut_block(text);
    if before.lines > 0 {
        return Err(fault(1, 4));
    }
    let mut trees = TreeList::new(alloc);
    let mut number = 0u64;
    let mut left = text;
    while !left.is_empty() {
        let (head, rest) = cut_line(left);
        let block = cut_block(rest);
        number += 1;
        trees = match add_tree(alloc, trees, number, head, block.text) {
            Ok(trees) => trees,
            Err(fault) => return Err(fault),
        };
        number += block.lines;
        left = block.behind;
    }
    Ok(trees.into_list())
}

// The trees with one more: that of a line that begins it, whose number this is, and of the lines of a text behind it.
fn add_tree(
    alloc: Global,
    trees: TreeList,
    number: u64,
    head: &[u8],
    block: &[u8],
) -> Result<TreeList, TreesFault>
    requires fits { number + length (text_lines block.now) < 2 ^ 64 }
    requires none { list_any is_head (text_lines block.now) ≡ false }
    requires trees { All (λ named. IsTree named.tree) trees }
    ensures adds { IsAnswer (and_then (λ more. with_lines (number + 1) more (text_lines block.now))
        (begun number trees (head_name head.now))) result }
    ensures trees { IfOk result (All (λ named. IsTree named.tree)) }
{
    let name = head_name(head);
    if !is_tree_name(name) {
        return Err(fault(number, 1));
    }
    if trees.has(name) {
        return Err(fault(number, 5));
    }
    match read_tree(alloc, block) {
        Ok(tree) => {
            let more = trees.with(alloc, name, tree)?;
            Ok(more)
        }
        Err(TreeFault::Line { line, why }) => Err(fault(number + line, why)),
        Err(TreeFault::Memory) => Err(TreesFault::Memory),
    }
}

// A fault of a line.
fn fault(line: u64, why: u8) -> TreesFault
    ensures { result ≡ Line line why }
{
    TreesFault::Line { line, why }
}
