ghost use Rattle.std.specs.Prelude.{◌≡◌, ◌+◌, ◌*◌, ◌^◌, ◌<◌, ◌≤◌, [], ◌∷◌, ◌++◌, length, map, slice_get, slice_set};
ghost use Rattle.std.specs.Prelude.{IfOk, OnOk, OnErr};
ghost use Rattle.std.specs.Option.{option_copied};
ghost use Rattle.shared_table.specs.Children.{with_item, joined, IsRow};

use crate::steps::Steps;
use script_names::{Copied, Memory};
use std::alloc::Global;
use std::marker::Model;
use std::rc::Rc;
use std::sync::ledger::Ledger;

// The most items of a leaf, and the most children of any other node.
const BRANCHING: usize = 16;

/// A node of the tree, which contracts see as its height and its items, in order. A leaf, of height 0, has up to 16
/// items. Any other node has up to 16 children, each one lower than it, and all but the last one are full.
#[cycle(node)]
#[derive(Debug, Drop)]
pub(crate) struct Node<T> {
    height: usize,
    part: Part<T>,
}

// What a node holds: items, or children, which other nodes may own too.
#[cycle(node)]
#[derive(Debug, Drop)]
enum Part<T> {
    Leaf(Vec<T>),
    Inner(Vec<Rc<Node<T>>>),
}

impl<T> Model for Node<T> {
    ghost use Rattle.std.specs.Prelude.{ℕ, List};
    ghost use Rattle.std.specs.Coded.{coded_list, coded×, coded_ℕ};

    ghost Value = { ℕ × List T };

    ghost coded = { coded× coded_ℕ (coded_list T.code) };

    ghost use Rattle.shared_table.specs.Nodes.{items_of, IsNode};

    ghost view = { λ node. (node.height, items_of node.part) };

    ghost invariant = { λ node. IsNode node.height node.part };

    ghost size = { λ node. node.0 };

    ghost use Rattle.shared_table.specs.Heights.{falls};

    ghost size_decreases = { λ node h. falls node.height node.part h };
}

// The item at a place of a node, counted from 0; `width` is how many items each of the node's children may have, and 1
// for a leaf.
pub(crate) fn item_at<T>(node: &Node<T>, width: usize, at: usize) -> Option<&T>
    requires { width ≡ 16 ^ node.now.0 }
    ensures { option_copied result ≡ slice_get node.now.1 at }
{
    match &node.part {
        Part::Leaf(items) => leaf_item(items, at),
        Part::Inner(children) => {
            let place = at / width;
            if place < children.len() {
                item_at(&children[place], width / BRANCHING, at % width)
            } else {
                None
            }
        }
    }
}

// The item at a place of a leaf.
fn leaf_item<T>(items: &Vec<T>, at: usize) -> Option<&T>
    ensures { option_copied result ≡ slice_get items.now.items at }
{
    items.get(at)
}

// The node behind a counted pointer. Every node of a tree is made here, a new one as well as a copy, and is one step.
fn allocated<T: Drop, L: Ledger>(
    alloc: Global,
    node: Node<T>,
    steps: &mut Steps<L>,
) -> Result<Rc<Node<T>>, Memory>
    ensures ok { IfOk result (λ rc. rc.value ≡ node) }
    ensures step { steps.new ≡ steps.old + 1 }
{
    steps.tick();
    Ok(Rc::new(alloc, node)?)
}

// An equal node, which has copies of this one's items, or owns its children too.
fn copied_node<T: Copied>(node: &Node<T>, alloc: Global) -> Result<Node<T>, Memory>
    ensures { IfOk result (λ copied. copied ≡ node.now) }
{
    let height = node.height;
    let part = match &node.part {
        Part::Leaf(items) => Part::Leaf(copied_items(items.as_slice(), alloc)?),
        Part::Inner(children) => Part::Inner(shared_children(children.as_slice(), alloc)?),
    };
    Ok(Node { height, part })
}

// Copies of items, in order.
fn copied_items<T: Copied>(items: &[T], alloc: Global) -> Result<Vec<T>, Memory>
    ensures { IfOk result (λ copies. copies.items ≡ items.now) }
{
    let mut out = Vec::with_capacity(alloc, BRANCHING)?;
    for item in items {
        out.push(item.copy(alloc)?)?;
    }
    Ok(out)
}

// One more owner of each child, in order.
fn shared_children<T: Drop>(
    children: &[Rc<Node<T>>],
    alloc: Global,
) -> Result<Vec<Rc<Node<T>>>, Memory>
    ensures { IfOk result (λ owners.
        map (λ child. child.value) owners.items ≡ map (λ child. child.value) children.now) }
{
    let mut out = Vec::with_capacity(alloc, BRANCHING)?;
    for child in children {
        out.push(child.clone()?)?;
    }
    Ok(out)
}

// A node of a height with one item.
pub(crate) fn single<T: Drop, L: Ledger>(
    alloc: Global,
    height: usize,
    item: T,
    steps: &mut Steps<L>,
) -> Result<Rc<Node<T>>, Memory>
    ensures ok { IfOk result (λ rc. rc.value ≡ (height, item ∷ [])) }
    ensures counts { steps.old ≤ steps.new }
    ensures cost { steps.new ≤ steps.old + (height + 1) }
{
    if height == 0 {
        let mut items = Vec::new(alloc);
        items.push(item)?;
        let part = Part::Leaf(items);
        return allocated(alloc, Node { height, part }, steps);
    }
    let child = single(alloc, height - 1, item, steps)?;
    let mut children = Vec::new(alloc);
    children.push(child)?;
    let part = Part::Inner(children);
    allocated(alloc, Node { height, part }, steps)
}

// Puts an item at a place or at the end: in the node itself where nobody else owns it, else in a copy that takes its
// place.
#[cycle(putting)]
pub(crate) fn put<T: Copied, L: Ledger>(
    node: &mut Rc<Node<T>>,
    width: usize,
    at: usize,
    item: T,
    alloc: Global,
    steps: &mut Steps<L>,
) -> Result<(), Memory>
    requires width { width ≡ 16 ^ node.old.value.0 }
    requires within { at ≤ length node.old.value.1 }
    requires room { at < 16 * width }
    ensures ok { OnOk result (node.new.value ≡ (node.old.value.0, with_item node.old.value.1 at item)) }
    ensures kept { OnErr result (node.new.value ≡ node.old.value) }
    ensures counts { steps.old ≤ steps.new }
    ensures cost { steps.new ≤ steps.old + (node.old.value.0 + 1) }
{
    if let Some(own) = Rc::get_mut(node) {
        return put_in_node(own, width, at, item, alloc, steps);
    }
    let mut own = copied_node(node, alloc)?;
    put_in_node(&mut own, width, at, item, alloc, steps)?;
    *node = allocated(alloc, own, steps)?;
    Ok(())
}

// Puts an item at a place or at the end of a node that nobody else owns.
#[cycle(putting)]
fn put_in_node<T: Copied, L: Ledger>(
    node: &mut Node<T>,
    width: usize,
    at: usize,
    item: T,
    alloc: Global,
    steps: &mut Steps<L>,
) -> Result<(), Memory>
    requires width { width ≡ 16 ^ node.old.0 }
    requires within { at ≤ length node.old.1 }
    requires room { at < 16 * width }
    ensures ok { OnOk result (node.new ≡ (node.old.0, with_item node.old.1 at item)) }
    ensures kept { OnErr result (node.new ≡ node.old) }
    ensures counts { steps.old ≤ steps.new }
    ensures cost { steps.new ≤ steps.old + node.old.0 }
{
    match &mut node.part {
        Part::Leaf(items) => put_in_leaf(items, at, item),
        Part::Inner(children) => put_in_children(
            children,
            node.height,
            width,
            at,
            item,
            alloc,
            steps,
        ),
    }
}

// Puts an item into one of the children of a node, or into a new one behind them.
#[cycle(putting)]
fn put_in_children<T: Copied, L: Ledger>(
    children: &mut Vec<Rc<Node<T>>>,
    height: usize,
    width: usize,
    at: usize,
    item: T,
    alloc: Global,
    steps: &mut Steps<L>,
) -> Result<(), Memory>
    requires height { 0 < height }
    requires width { width ≡ 16 ^ height }
    requires row { IsRow height width (map (λ child. child.value) children.old.items) }
    requires within { at ≤ length (joined (map (λ child. child.value) children.old.items)) }
    ensures row { IsRow height width (map (λ child. child.value) children.new.items) }
    ensures ok { OnOk result (joined (map (λ child. child.value) children.new.items)
        ≡ with_item (joined (map (λ child. child.value) children.old.items)) at item) }
    ensures kept { OnErr result (joined (map (λ child. child.value) children.new.items)
        ≡ joined (map (λ child. child.value) children.old.items)) }
    ensures counts { steps.old ≤ steps.new }
    ensures cost { steps.new ≤ steps.old + height }
{
    let place = at / width;
    if place < children.len() {
        put(
            &mut children[place],
            width / BRANCHING,
            at % width,
            item,
            alloc,
            steps,
        )
    } else {
        let child = single(alloc, height - 1, item, steps)?;
        children.push(child)?;
        Ok(())
    }
}

// Puts an item at a place or at the end of a leaf.
fn put_in_leaf<T: Drop>(items: &mut Vec<T>, at: usize, item: T) -> Result<(), Memory>
    requires { at ≤ length items.old.items }
    ensures ok { OnOk result (items.new.items ≡ with_item items.old.items at item) }
    ensures kept { OnErr result (items.new.items ≡ items.old.items) }
{
    if at < items.len() {
        items[at] = item;
    } else {
        items.push(item)?;
    }
    Ok(())
}

// Puts an item in place of the one that is there.
pub(crate) fn replace<T: Copied, L: Ledger>(
    root: &mut Rc<Node<T>>,
    width: usize,
    at: usize,
    item: T,
    alloc: Global,
    steps: &mut Steps<L>,
) -> Result<(), Memory>
    requires width { width ≡ 16 ^ root.old.value.0 }
    requires within { at < length root.old.value.1 }
    requires room { at < 16 * width }
    ensures ok { OnOk result (root.new.value ≡ (root.old.value.0, slice_set root.old.value.1 at item)) }
    ensures kept { OnErr result (root.new.value ≡ root.old.value) }
    ensures counts { steps.old ≤ steps.new }
    ensures cost { steps.new ≤ steps.old + (root.old.value.0 + 1) }
{
    put(root, width, at, item, alloc, steps)?;
    Ok(())
}

// A node one higher than a full one, which is its first child; the second child has one item.
fn under_new_root<T: Copied, L: Ledger>(
    root: &Rc<Node<T>>,
    width: usize,
    item: T,
    alloc: Global,
    steps: &mut Steps<L>,
) -> Result<Rc<Node<T>>, Memory>
    requires width { width ≡ 16 ^ root.now.value.0 }
    requires full { length root.now.value.1 ≡ 16 * width }
    ensures ok { IfOk result (λ rc. rc.value ≡ (root.now.value.0 + 1, root.now.value.1 ++ item ∷ [])) }
    ensures counts { steps.old ≤ steps.new }
    ensures cost { steps.new ≤ steps.old + (root.now.value.0 + 2) }
{
    let height = root.height();
    let mut children = Vec::new(alloc);
    children.push(root.clone()?)?;
    children.push(single(alloc, height, item, steps)?)?;
    let part = Part::Inner(children);
    let height = height + 1;
    allocated(alloc, Node { height, part }, steps)
}

// Puts an item behind all others, where the root is full below a new root; the answer is the width of the root then.
pub(crate) fn append<T: Copied, L: Ledger>(
    root: &mut Rc<Node<T>>,
    width: usize,
    len: usize,
    item: T,
    alloc: Global,
    steps: &mut Steps<L>,
) -> Result<usize, Memory>
    requires len { len ≡ length root.old.value.1 }
    requires width { width ≡ 16 ^ root.old.value.0 }
    requires few { len ≤ 16 * width }
    requires fits { len + 1 < 2 ^ 64 }
    ensures items { OnOk result (root.new.value.1 ≡ root.old.value.1 ++ item ∷ []) }
    ensures width { IfOk result (λ wide. wide ≡ 16 ^ root.new.value.0) }
    ensures least { IfOk result (λ wide. width ≤ len → wide ≤ len + 1) }
    ensures few { IfOk result (λ wide. len + 1 ≤ 16 * wide) }
    ensures kept { OnErr result (root.new.value ≡ root.old.value) }
    ensures counts { steps.old ≤ steps.new }
    ensures cost { steps.new ≤ steps.old + (root.old.value.0 + 2) }
{
    if len / BRANCHING < width {
        put(root, width, len, item, alloc, steps)?;
        return Ok(width);
    }
    let above = under_new_root(root, width, item, alloc, steps)?;
    *root = above;
    Ok(len)
}

impl<T> Node<T> {
    // The node's height, 0 for a leaf.
    fn height(&self) -> usize
        ensures { result ≡ self.now.0 }
    {
        self.height
    }
}
