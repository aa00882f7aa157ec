//! The rows of a tree's nodes in preorder, from the parser's rows.
ghost use Rattle.std.specs.Prelude.{◌≡◌, ◌+◌, ◌<◌, ◌≤◌, ◌^◌, [], length, reverse, nat_lt, vec_capacity, IfOk};
ghost use Rattle.ssr_syntax_kinds.specs.declared.kinds.SyntaxKind.{SyntaxKind};
ghost use Rattle.ssr_syntax_rows.specs.Leaves.{rows as rows_of};
ghost use Rattle.ssr_syntax_rows.specs.Preorder.{OkUnlessDeep, tree_rows, most_nodes};
ghost use Rattle.ssr_syntax_tree.specs.Syntax.{most_deep};
ghost use Rattle.ssr_syntax_rows.specs.Private.OpenNodes.{opened, AreEnough, IsClosed, IsOpened, IsFromRight};
ghost use Rattle.ssr_syntax_forms.specs.Trees.{Forest, done, height, tree};
ghost use Rattle.ssr_syntax_forms.specs.Places.{Place};

use crate::turning::Turning;
use ssr_syntax_forms::Fault;
use ssr_syntax_tree::{NodeRow, NodeRows};
use std::alloc::Global;

/// How deep a tree may be: the depth of its root is 0.
const MOST_DEEP: usize = 1024;

/// How many nodes a tree may have, so that their numbers are of 32 bits; more are told as want of memory. The gap below
/// 2^32 is room for the open nodes, which are added to a number.
const MOST_NODES: usize = 0xffff_f000;

/// How many nodes may be open at once: one at each depth.
const MOST_OPEN: usize = MOST_DEEP + 1;

/// A node with its row, as long as more nodes may stand below it.
#[derive(Clone, Copy)]
struct Open {
    /// How many of the parser's rows are in front of the node's own and of those of the nodes below it.
    start: usize,
    number: u32,
    node: NodeRow,
}

/// Closes the open nodes that begin at `place` or behind it.
#[inline(always)]
fn close_open(place: usize, above: &mut Vec<Open>, rows: &mut Turning)
    requires { length above.old.items ≤ rows.old.room }
    ensures closed { IsClosed place above.old.items above.new.items rows.old.turned rows.new.turned }
    ensures unread { rows.new.unread ≡ rows.old.unread }
    ensures room { rows.new.room + length above.old.items ≡ rows.old.room + length above.new.items }
    ensures fewer { length above.new.items ≤ length above.old.items }
    ensures places { vec_capacity above.new ≡ vec_capacity above.old }
{
    while let Some(inner) = above.last() {
        if inner.start < place {
            break;
        }
        rows.put(inner.node);
        above.pop();
    }
}

/// The node of a row with `place` rows in front of it, below the open ones.
#[inline(always)]
fn opened(row: &NodeRow, place: usize, above: &[Open]) -> Open
    requires { place + length above.now < 2 ^ 32 }
    ensures { result ≡ opened row.now place (reverse above.now) }
{
    let (parent, low) = match above.last() {
        Some(inner) => (inner.number, inner.node.first),
        None => (0, 0),
    };
    let start = place.saturating_sub(row.below as usize);
    Open {
        start,
        number: (start + above.len()) as u32,
        node: NodeRow {
            kind: row.kind,
            parent,
            first: row.first.max(low),
            past: row.past.max(low),
            below: row.below,
        },
    }
}

/// Opens the node of a row with `place` rows in front of it, or turns it at once if no node is below it.
#[inline(always)]
fn open_row(
    row: &NodeRow,
    place: usize,
    above: &mut Vec<Open>,
    rows: &mut Turning,
) -> Result<(), Fault>
    requires few { place ≤ most_nodes }
    requires room { rows.old.room ≡ 1 + length above.old.items }
    requires places { AreEnough (vec_capacity above.old) rows.old }
    ensures opened { IsOpened row.now place above.old.items above.new.items rows.old.turned rows.new.turned result }
    ensures unread { rows.new.unread ≡ rows.old.unread }
    ensures room { IfOk result (λ _. rows.new.room ≡ length above.new.items) }
    ensures one_more { length above.new.items ≤ 1 + length above.old.items }
    ensures places { vec_capacity above.new ≡ vec_capacity above.old }
{
    close_open(place + 1, above, rows);
    if above.len() > MOST_DEEP {
        return Err(Fault::TooDeep);
    }
    let inner = opened(row, place, above);
    if row.below == 0 {
        rows.put(inner.node);
    } else {
        above.push_reserved(inner);
    }
    Ok(())
}

/// Turns the rows, the last one first, and then the open nodes above. It has both lists to itself, so that what the loop
/// knows of them can stay in registers.
#[inline(never)]
fn from_right(mut above: Vec<Open>, mut rows: Turning) -> Result<Turning, Fault>
    requires few { length rows.unread ≤ most_nodes }
    requires room { rows.room ≡ length above.items }
    requires places { AreEnough (vec_capacity above) rows }
    ensures turned { IsFromRight rows.unread above.items rows.turned result }
    ensures read { IfOk result (λ t. t.unread ≡ []) }
    ensures full { IfOk result (λ t. t.room ≡ 0) }
{
    while let Some(row) = rows.read() {
        open_row(&row, rows.unread(), &mut above, &mut rows)?;
    }
    close_open(0, &mut above, &mut rows);
    Ok(rows)
}

/// The rows of the nodes of a tree of so many tokens in preorder, from the parser's, in the same vectors.
pub fn node_rows(alloc: Global, rows: NodeRows, tokens: u32) -> Result<NodeRows, Fault>
    ensures { (kind : SyntaxKind) (kids : Forest) (p : Place) → rows ≡ rows_of (tree kind kids done) p
        → OkUnlessDeep (nat_lt most_deep (height kids))
        (λ v. (v ≡ tree_rows p tokens kind kids) × (length rows ≤ most_nodes))
        result }
{
    let count = rows.len();
    if count > MOST_NODES {
        return Err(Fault::Memory);
    }
    let mut rows = Turning::new(rows);
    let Some(root) = rows.read() else {
        return Err(Fault::NoTree);
    };
    let node = NodeRow {
        kind: root.kind,
        parent: 0,
        first: 0,
        past: tokens,
        below: rows.unread() as u32,
    };
    // There is room for all that may be open at once from the first one on.
    let mut above = Vec::with_capacity(alloc, count.min(MOST_OPEN))?;
    above.push_reserved(Open {
        start: 0,
        number: 0,
        node,
    });
    let turned = from_right(above, rows)?;
    Ok(turned.finish())
}
