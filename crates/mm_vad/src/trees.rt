ghost use Rattle.std.specs.Prelude.{◌≡◌, ◌==◌, ◌+◌, ◌-◌, ◌^◌, ◌<◌, ◌≤◌, max, if◌then◌else◌, [], ◌∷◌, ◌++◌, length, Some, None, IsSome, IsTrue, MatchOption, IfSome, option_map, find, nat_le, false};
ghost use Rattle.std.specs.Option.{ForSome, option_or};
ghost use Rattle.mm_types.specs.{end_of, end_of_user_pages, holds_page};
ghost use Rattle.mm_vad.specs.Ranges.{LieApart, add_range, remove_range, is_begun_at, first_and_count};
ghost use Rattle.mm_vad.specs.Room.{aligned, room, first_fit};
ghost use Rattle.mm_vad.specs.Shape.{IsShaped, IsFork, IsTurned, IsBalanced, DifferByAtMost, VisitsAtMost};
ghost use Rattle.mm_vad.specs.Nodes.{taken_range, range_in, ranges_under, tree_of, tree_at, IsSpan, IsNode, IsTree, MayLean, MayLeanAt, Became};

use crate::{Ledger, Steps, Uncounted};
use mm_types::{END_OF_USER_PAGES, Vpn};
use std::marker::Model;
use std::mem;

/// A range of pages.
#[derive(Clone, Copy)]
pub struct TakenRange {
    pub first: u32,
    pub count: u32,
}

impl TakenRange {
    /// The page behind the last one.
    fn end(self) -> u32
        requires { self.first + self.count ≤ end_of_user_pages }
        ensures { result ≡ self.first + self.count }
    {
        self.first + self.count
    }
}

/// Ranges in order, as a balanced tree.
#[cycle(tree)]
#[derive(Drop)]
pub struct Tree {
    root: Option<Box<Node>>,
}

/// A range of pages, between the ranges below it and those above it.
#[cycle(tree)]
#[derive(Drop)]
pub struct Node {
    left: Tree,
    pub pages: TakenRange,
    right: Tree,
    /// The most room between the lowest range here and this one.
    left_gap: u32,
    /// The most room between this range and the highest one here.
    right_gap: u32,
    span: Span,
}

/// What is kept of the ranges of a tree.
#[derive(Clone, Copy)]
struct Span {
    /// The first page of the lowest range; 0 where there is none.
    lowest: u32,
    /// The end of the highest range; that of the user pages where there is none.
    highest: u32,
    /// The most pages that are free from some granule on, between two of the ranges.
    gap: u32,
    height: u32,
}

impl Span {
    /// What is kept where there are no ranges.
    const NONE: Span = Span {
        lowest: 0,
        highest: END_OF_USER_PAGES,
        gap: 0,
        height: 0,
    };
}

impl Model for Tree {
    ghost use Rattle.std.specs.Prelude.{length};
    ghost use Rattle.mm_vad.specs.Shape.{TreeOf};

    ghost Value = { TreeOf };

    ghost use Rattle.mm_vad.specs.Nodes.{tree_of, IsTree};

    ghost view = { λ t. tree_of t.root };

    ghost invariant = { λ t. IsTree t.root };

    ghost size = { λ d. length d.ranges };

    ghost use Rattle.std.proofs.Common.{arith, length-append};

    ghost size_decreases = { λ a h. Prim.grind (arith, length-append) };
}

impl Node {
    /// A node that holds no range yet.
    pub fn blank() -> Node {
        Node {
            left: Tree::new(),
            pages: TakenRange { first: 0, count: 0 },
            right: Tree::new(),
            left_gap: 0,
            right_gap: 0,
            span: Span::NONE,
        }
    }
}

impl Tree {
    pub fn new() -> Tree
        ensures { result ≡ record { ranges = []; height = 0 } }
    {
        Tree { root: None }
    }

    /// The node at the root.
    fn top(&self) -> Option<&Node>
        ensures node { MatchOption result (self.now ≡ record {
          ranges = [];
          height = 0;
        }) (λ n. IsNode n.now self.now) }
        ensures shaped { IsShaped self.now }
    {
        match &self.root {
            None => None,
            Some(node) => Some(node),
        }
    }

    /// What is kept of the ranges here.
    fn span(&self) -> Span
        ensures is { IsSpan result self.now }
        ensures shaped { IsShaped self.now }
    {
        match self.top() {
            None => Span::NONE,
            Some(node) => node.span,
        }
    }

    /// The node at the root, for a search that counts its steps: each node that it reads is one.
    fn visit<L: Ledger>(&self, steps: &mut Steps<L>) -> Option<&Node>
        ensures node { MatchOption result (self.now ≡ record {
          ranges = [];
          height = 0;
        }) (λ n. IsNode n.now self.now) }
        ensures shaped { IsShaped self.now }
        ensures counted { MatchOption result (steps.new.ledger ≡ steps.old.ledger)
            (λ _. steps.new.ledger ≡ L.stepped steps.old.ledger) }
    {
        match &self.root {
            None => None,
            Some(node) => {
                steps.count();
                Some(node)
            }
        }
    }

    /// The range at the root, and the trees below it and above it.
    fn apart(self) -> Option<(Tree, Box<Node>, Tree)>
        ensures fork { MatchOption result (self ≡ record {
          ranges = [];
          height = 0;
        }) (λ t. IsFork self t.0 (range_in t.1.value) t.2) }
        ensures within { IfSome result (λ t. end_of (range_in t.1.value) ≤ end_of_user_pages) }
    {
        match self.root {
            None => None,
            Some(mut node) => {
                let left = mem::replace(&mut node.left, Tree::new());
                let right = mem::replace(&mut node.right, Tree::new());
                Some((left, node, right))
            }
        }
    }

    /// The range of `node` comes to its place. Answers whether what is kept of the ranges has
    /// changed.
    pub fn insert(&mut self, node: Box<Node>) -> bool
        requires apart { LieApart 0 self.old.ranges }
        requires within { end_of (range_in node.value) ≤ end_of_user_pages }
        requires few { length self.old.ranges + 1 < 2 ^ 32 }
        ensures { Became self.old self.new (add_range (range_in node.value) self.old.ranges)
            self.old.height (self.old.height + 1) result }
    {
        let Some(top) = &mut self.root else {
            plant(self, node);
            return true;
        };
        if node.pages.first < top.pages.first {
            if top.left.insert(node) {
                return settle(top, true);
            }
            return false;
        }
        if top.right.insert(node) {
            return settle(top, false);
        }
        false
    }

    /// The range that begins at `first` goes. Answers its node, and whether what is kept of the
    /// ranges has changed.
    pub fn remove(&mut self, first: u32) -> (Box<Node>, bool)
        requires apart { LieApart 0 self.old.ranges }
        requires begun { IsTrue (is_begun_at first self.old.ranges) }
        requires few { length self.old.ranges < 2 ^ 32 }
        ensures { Became self.old self.new (remove_range first self.old.ranges)
            (self.old.height - 1) self.old.height result.1 }
    {
        if begins_at(&self.root, first) {
            return (take_top(&mut self.root), true);
        }
        let Some(top) = &mut self.root else {
            unreachable!()
        };
        if first < top.pages.first {
            let (node, changed) = top.left.remove(first);
            if changed {
                return (node, settle(top, true));
            }
            return (node, false);
        }
        let (node, changed) = top.right.remove(first);
        if changed {
            return (node, settle(top, false));
        }
        (node, false)
    }

    /// The range that holds page `v`.
    pub fn at(&self, v: u32) -> Option<(Vpn, u32)>
        requires { LieApart 0 self.now.ranges }
        ensures { result ≡ option_map first_and_count (find (λ r. holds_page r v) self.now.ranges) }
    {
        let mut tree = self;
        while let Some(node) = tree.top() {
            let pages = node.pages;
            if v < pages.first {
                tree = &node.left;
            } else if v < pages.end() {
                return Some((Vpn(pages.first), pages.count));
            } else {
                tree = &node.right;
            }
        }
        None
    }

    /// The first range that begins at page `v` or above it.
    pub fn first_from(&self, v: u32) -> Option<(Vpn, u32)>
        requires { LieApart 0 self.now.ranges }
        ensures { result ≡ option_map first_and_count
            (find (λ r. nat_le v r.first) self.now.ranges) }
    {
        let mut tree = self;
        let mut above = None;
        while let Some(node) = tree.top() {
            let pages = node.pages;
            if pages.first < v {
                tree = &node.right;
            } else {
                above = Some((Vpn(pages.first), pages.count));
                tree = &node.left;
            }
        }
        above
    }

    /// The first granule with room for `n` pages from `low` on, between the ranges or below `high`.
    pub fn lowest_gap<L: Ledger>(
        &self,
        low: u32,
        high: u32,
        n: u32,
        steps: &mut Steps<L>,
    ) -> Option<u32>
        requires { low ≤ end_of_user_pages }
        ensures found { result ≡ first_fit low self.now.ranges high n }
        ensures few { VisitsAtMost L.stepped steps.old.ledger steps.new.ledger self.now.height }
        ensures shaped { IsShaped self.now }
    {
        let mut tree = self;
        let (mut from, mut to) = (low, high);
        while let Some(node) = tree.visit(steps) {
            if n <= room_between(from, node.span.lowest) {
                return Some(align_up(from));
            }
            if n <= node.left_gap {
                to = node.pages.first;
                tree = &node.left;
            } else {
                from = node.pages.end();
                tree = &node.right;
            }
        }
        if n <= room_between(from, to) {
            Some(align_up(from))
        } else {
            None
        }
    }
}

/// The first page of the lowest granule that begins at the page or above it.
fn align_up(page: u32) -> u32
    requires { page ≤ end_of_user_pages }
    ensures { result ≡ aligned page }
{
    (page + 15) / 16 * 16
}

/// The most pages from the beginning of a granule on, from `low` on and below `high`.
fn room_between(low: u32, high: u32) -> u32
    requires { low ≤ end_of_user_pages }
    ensures { result ≡ room low high }
{
    high.saturating_sub(align_up(low))
}

/// The range of `node` between two trees that are about as high.
#[inline(always)] // each step of the way to the lowest range of a side ends here
fn fork(left: Tree, mut node: Box<Node>, right: Tree) -> Tree
    requires near { DifferByAtMost 1 left.height right.height }
    requires within { end_of (range_in node.value) ≤ end_of_user_pages }
    requires few { length left.ranges + length right.ranges + 1 < 2 ^ 32 }
    ensures { IsFork result left (range_in node.value) right }
{
    let pages = node.pages;
    *node = node_over(left, pages, right);
    Tree { root: Some(node) }
}

/// The range of `node` becomes the only one of a tree that has none. It is not inlined, so that the
/// way down does not pay for the room that this takes.
#[inline(never)]
fn plant(tree: &mut Tree, node: Box<Node>)
    requires bare { tree.old ≡ record { ranges = []; height = 0 } }
    requires within { end_of (range_in node.value) ≤ end_of_user_pages }
    ensures { IsFork tree.new tree.old (range_in node.value) tree.old }
{
    *tree = fork(Tree::new(), node, Tree::new());
}

/// A range between two trees that are about as high, with what is kept of them.
#[inline(always)]
fn node_over(left: Tree, pages: TakenRange, right: Tree) -> Node
    requires near { DifferByAtMost 1 left.height right.height }
    requires within { end_of (taken_range pages) ≤ end_of_user_pages }
    requires few { length left.ranges + length right.ranges + 1 < 2 ^ 32 }
    ensures node { IsNode result (tree_at result) }
    ensures left { result.left ≡ left }
    ensures pages { result.pages ≡ pages }
    ensures right { result.right ≡ right }
{
    let (below, above) = (left.span(), right.span());
    let left_gap = room_up_to(pages, below);
    let right_gap = room_from(pages, above);
    let span = Span {
        lowest: lowest_from(below, pages),
        highest: highest_from(pages, above),
        gap: left_gap.max(right_gap),
        height: below.height.max(above.height) + 1,
    };
    Node {
        left,
        pages,
        right,
        left_gap,
        right_gap,
        span,
    }
}

/// Puts a node right of which one side, the left one or the right one, may have changed and be two
/// levels higher or lower than the other. Answers whether what it keeps of both has changed.
#[inline(always)] // each step of the way down to a range that comes or goes may end here
fn settle(node: &mut Node, at_left: bool) -> bool
    requires { MayLeanAt at_left node.old }
    ensures is { IsNode node.new (tree_at node.new) }
    ensures balanced { IsBalanced (tree_at node.new) (ranges_under node.old) node.old.left.height
        node.old.right.height }
    ensures same { result ≡ false → IsSpan node.old.span (tree_at node.new) }
{
    let (below, above) = (node.left.span(), node.right.span());
    if below.height.abs_diff(above.height) > 1 {
        level(node);
        return true;
    }
    let was = node.span;
    if at_left {
        node.left_gap = room_up_to(node.pages, below);
        node.span.lowest = lowest_from(below, node.pages);
    } else {
        node.right_gap = room_from(node.pages, above);
        node.span.highest = highest_from(node.pages, above);
    }
    node.span.gap = node.left_gap.max(node.right_gap);
    node.span.height = below.height.max(above.height) + 1;
    differ(was, node.span)
}

/// Puts a node right of whose sides one is two levels higher.
#[cold]
#[inline(never)]
fn level(node: &mut Node)
    requires { MayLean node.old }
    ensures is { IsNode node.new (tree_at node.new) }
    ensures balanced { IsBalanced (tree_at node.new) (ranges_under node.old) node.old.left.height
        node.old.right.height }
{
    let left = mem::replace(&mut node.left, Tree::new());
    let right = mem::replace(&mut node.right, Tree::new());
    let (left, pages, right) = turn(left, node.pages, right);
    *node = node_over(left, pages, right);
}

/// Whether one says something else than the other.
fn differ(a: Span, b: Span) -> bool
    ensures { result ≡ false → a ≡ b }
{
    a.lowest != b.lowest || a.highest != b.highest || a.gap != b.gap || a.height != b.height
}

/// Whether the range at the root begins at `first`.
fn begins_at(root: &Option<Box<Node>>, first: u32) -> bool
    requires { IsSome root.now }
    ensures { ForSome root.now (λ n. result ≡ (n.value.pages.first == first)) }
{
    match root {
        None => unreachable!(),
        Some(node) => node.pages.first == first,
    }
}

/// The node at the root, in whose place the ranges of its sides stay.
fn take_top(root: &mut Option<Box<Node>>) -> Box<Node>
    requires some { IsSome root.old }
    requires near { ForSome root.old
        (λ n. DifferByAtMost 1 n.value.left.height n.value.right.height) }
    requires few { ForSome root.old
        (λ n. length n.value.left.ranges + length n.value.right.ranges < 2 ^ 32) }
    ensures tree { IsTree root.new }
    ensures ranges { ForSome root.old
        (λ n. (tree_of root.new).ranges ≡ n.value.left.ranges ++ n.value.right.ranges) }
    ensures least { ForSome root.old
        (λ n. max n.value.left.height n.value.right.height ≤ (tree_of root.new).height) }
    ensures most { ForSome root.old
        (λ n. (tree_of root.new).height ≤ max n.value.left.height n.value.right.height + 1) }
{
    let Some(mut top) = mem::replace(root, None) else {
        unreachable!()
    };
    let left = mem::replace(&mut top.left, Tree::new());
    let right = mem::replace(&mut top.right, Tree::new());
    *root = join(left, right).root;
    top
}

/// The most room between the ranges below a range, of which this is kept, and up to it.
fn room_up_to(pages: TakenRange, below: Span) -> u32
    requires { below.highest ≤ end_of_user_pages }
    ensures { result ≡ max below.gap (room below.highest pages.first) }
{
    below.gap.max(room_between(below.highest, pages.first))
}

/// The most room from a range on between the ranges above it, of which this is kept.
fn room_from(pages: TakenRange, above: Span) -> u32
    requires { end_of (taken_range pages) ≤ end_of_user_pages }
    ensures { result ≡ max (room (end_of (taken_range pages)) above.lowest) above.gap }
{
    room_between(pages.end(), above.lowest).max(above.gap)
}

/// The first page of the ranges below a range, of which this is kept, and of that one.
fn lowest_from(below: Span, pages: TakenRange) -> u32
    ensures { result ≡ if below.height == 0 then pages.first else below.lowest }
{
    if below.height == 0 {
        pages.first
    } else {
        below.lowest
    }
}

/// The end of a range and of the ranges above it, of which this is kept.
fn highest_from(pages: TakenRange, above: Span) -> u32
    requires { end_of (taken_range pages) ≤ end_of_user_pages }
    ensures { result ≡ if above.height == 0 then end_of (taken_range pages) else above.highest }
{
    if above.height == 0 {
        pages.end()
    } else {
        above.highest
    }
}

/// The range of `node` between two trees of which one may be two levels higher.
fn balance(left: Tree, mut node: Box<Node>, right: Tree) -> Tree
    requires near { DifferByAtMost 2 left.height right.height }
    requires within { end_of (range_in node.value) ≤ end_of_user_pages }
    requires few { length left.ranges + length right.ranges + 1 < 2 ^ 32 }
    ensures { IsBalanced result (left.ranges ++ range_in node.value ∷ right.ranges) left.height
        right.height }
{
    let (left, pages, right) = turn(left, node.pages, right);
    node.pages = pages;
    fork(left, node, right)
}

/// Two trees of which one may be two levels higher, and a range between them: as two that are about
/// as high, and a range between these.
fn turn(left: Tree, pages: TakenRange, right: Tree) -> (Tree, TakenRange, Tree)
    requires near { DifferByAtMost 2 left.height right.height }
    requires within { end_of (taken_range pages) ≤ end_of_user_pages }
    requires few { length left.ranges + length right.ranges + 1 < 2 ^ 32 }
    ensures { IsTurned left (taken_range pages) right result.0 (taken_range result.1) result.2 }
{
    let (l, r) = (left.span().height, right.span().height);
    if l > r + 1 {
        turn_right(left, pages, right)
    } else if r > l + 1 {
        turn_left(left, pages, right)
    } else {
        (left, pages, right)
    }
}

/// As `turn`, where the left one is two levels higher.
#[cold]
#[inline(never)]
fn turn_right(left: Tree, pages: TakenRange, right: Tree) -> (Tree, TakenRange, Tree)
    requires two_higher { left.height ≡ right.height + 2 }
    requires within { end_of (taken_range pages) ≤ end_of_user_pages }
    requires few { length left.ranges + length right.ranges + 1 < 2 ^ 32 }
    ensures { IsTurned left (taken_range pages) right result.0 (taken_range result.1) result.2 }
{
    let Some((outer, mut top, inner)) = left.apart() else {
        unreachable!()
    };
    if outer.span().height >= inner.span().height {
        let between = mem::replace(&mut top.pages, pages);
        return (outer, between, fork(inner, top, right));
    }
    let Some((below, mut middle, above)) = inner.apart() else {
        unreachable!()
    };
    let between = mem::replace(&mut middle.pages, pages);
    (fork(outer, top, below), between, fork(above, middle, right))
}

/// As `turn`, where the right one is two levels higher.
#[cold]
#[inline(never)]
fn turn_left(left: Tree, pages: TakenRange, right: Tree) -> (Tree, TakenRange, Tree)
    requires two_higher { right.height ≡ left.height + 2 }
    requires within { end_of (taken_range pages) ≤ end_of_user_pages }
    requires few { length left.ranges + length right.ranges + 1 < 2 ^ 32 }
    ensures { IsTurned left (taken_range pages) right result.0 (taken_range result.1) result.2 }
{
    let Some((inner, mut top, outer)) = right.apart() else {
        unreachable!()
    };
    if outer.span().height >= inner.span().height {
        let between = mem::replace(&mut top.pages, pages);
        return (fork(left, top, inner), between, outer);
    }
    let Some((below, mut middle, above)) = inner.apart() else {
        unreachable!()
    };
    let between = mem::replace(&mut middle.pages, pages);
    (fork(left, middle, below), between, fork(above, top, outer))
}

/// The ranges of two trees that are about as high, one tree after the other.
fn join(left: Tree, right: Tree) -> Tree
    requires near { DifferByAtMost 1 left.height right.height }
    requires few { length left.ranges + length right.ranges < 2 ^ 32 }
    ensures ranges { result.ranges ≡ left.ranges ++ right.ranges }
    ensures least { max left.height right.height ≤ result.height }
    ensures most { result.height ≤ max left.height right.height + 1 }
{
    match right.apart() {
        None => left,
        Some((below, top, above)) => {
            let (lowest, rest) = take_lowest(below, top, above);
            balance(left, lowest, rest)
        }
    }
}

/// The node of the lowest range of a tree that was taken apart, and the others.
fn take_lowest(left: Tree, top: Box<Node>, right: Tree) -> (Box<Node>, Tree)
    requires near { DifferByAtMost 1 left.height right.height }
    requires within { end_of (range_in top.value) ≤ end_of_user_pages }
    requires few { length left.ranges + length right.ranges + 1 < 2 ^ 32 }
    ensures ranges { range_in result.0.value ∷ result.1.ranges ≡ left.ranges ++ range_in top.value ∷
        right.ranges }
    ensures within { end_of (range_in result.0.value) ≤ end_of_user_pages }
    ensures not_higher { result.1.height ≤ max left.height right.height + 1 }
    ensures at_most_one_lower { max left.height right.height ≤ result.1.height }
{
    match left.apart() {
        None => (top, right),
        Some((below, inner, above)) => {
            let (lowest, rest) = take_lowest(below, inner, above);
            (lowest, balance(rest, top, right))
        }
    }
}
