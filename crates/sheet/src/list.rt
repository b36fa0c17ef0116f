//! The list of a sheet's tree.

ghost use Rattle.std.specs.Prelude.{◌≡◌, ℕ, ◌<◌, ◌≤◌, ◌++◌, length, drop};
ghost use Rattle.screen.specs.Forest.{Forest, body, cnt};
ghost use Rattle.screen.specs.Standing.{openings};
ghost use Rattle.screen.specs.Lines.{line_of, lines_of};
ghost use Rattle.sheet.specs.Links.{Links};
ghost use Rattle.sheet.specs.Listed.{ends_of, ScopeBelow};

use crate::rows::{NodeRow, ScopeRow};
use screen::{Line, NONE, Node};

/// Writes a line for each node below the body, a node before its children, and answers how many.
pub(crate) fn list(nodes: &[NodeRow], scopes: &[ScopeRow], lines: &mut [Line]) -> u32
    requires few { length nodes.now ≤ 1024 }
    requires room { 1024 ≤ length lines.old }
    requires tree { (f : Forest) × Links nodes.now 4294967295 (body f) × ((k : ℕ) → cnt k (body f) ≤ 1) × ((k : ℕ) → 0 < openings k f → k < length scopes.now) }
    ensures { (f : Forest) → Links nodes.now 4294967295 (body f) → ((k : ℕ) → cnt k (body f) ≤ 1)
        → (result ≡ length (lines_of (ends_of scopes.now) 1 f)) × (lines.new ≡ lines_of (ends_of scopes.now) 1 f ++ drop result lines.old) }
{
    let mut node: u32 = 0;
    let mut child = nodes[0].first;
    let mut level: u32 = 0;
    let mut n: u32 = 0;
    // the way back up goes by the rows' own links, so that the walk needs no stack; a chain has no such step
    while child != NONE || node != 0 {
        if child != NONE {
            let row = nodes[child as usize];
            level += 1;
            lines[n as usize] = line(&Node::from(row.made), child, level, scopes);
            n += 1;
            node = child;
            child = row.first;
        } else {
            let row = nodes[node as usize];
            child = row.next;
            node = row.parent;
            level -= 1;
        }
    }
    n
}

/// A node's line.
fn line(node: &Node, number: u32, level: u32, scopes: &[ScopeRow]) -> Line
    requires { ScopeBelow (length scopes.now) node.now }
    ensures { result ≡ line_of (ends_of scopes.now) level number node.now }
{
    match *node {
        Node::Body => Line::plain(level, number, b'B'),
        Node::Add { .. } => Line::plain(level, number, b'I'),
        Node::Terminal { .. } => Line::plain(level, number, b'T'),
        Node::Arm => Line::plain(level, number, b'A'),
        Node::Scope { scope } => Line {
            level,
            node: number,
            scope: u32::from(scope),
            end: scopes[scope.index()].end,
            letter: b'S',
        },
        Node::Pruned { .. } => Line::plain(level, number, b'P'),
    }
}
