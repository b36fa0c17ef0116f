//! A node of the tree, as a comment line.

use screen::{DependencyRow, Line, Node};
use sheet::Sheet;
use std::io;
use std::io::Write;

/// A line of the list of what stands on a sheet. It is only written, and nothing prints or compares two.
#[derive(Clone, Copy)]
pub struct Shown<'a, 'b> {
    pub sheet: &'a Sheet<'b>,
    pub line: &'a Line,
}

impl Shown<'_, '_> {
    /// Writes the node with two spaces for each level: its number, the record that made it, and what a Scope has.
    pub fn write<W: Write>(self, out: &mut W) -> io::Result<()> {
        let Shown { sheet, line } = self;
        let indent = line.level.saturating_mul(2) as usize;
        write!(out, "#{:indent$}", "")?;
        let Some(row) = sheet.nodes.rows.get(line.node as usize) else {
            return Ok(());
        };
        write!(out, "{} {}", line.node, text::Line(row.made.into()))?;
        if let Node::Scope { scope } = Node::from(row.made) {
            self.write_scope(scope.index(), out)?;
        }
        writeln!(out)
    }

    /// Writes a Scope's range and dependencies.
    fn write_scope<W: Write>(self, scope: usize, out: &mut W) -> io::Result<()> {
        let sheet = self.sheet;
        let Some(row) = sheet.scopes.rows.get(scope) else {
            return Ok(());
        };
        write!(out, ", range {} to {}", row.start, row.end)?;
        let end = self.dependencies_end(scope) as usize;
        let rows = sheet.dependencies.rows.iter();
        for dependency in rows.take(end).skip(row.begin as usize) {
            self.write_dependency(dependency, out)?;
        }
        Ok(())
    }

    /// Where the dependencies of a Scope end: where those of the next begin, if there is one.
    fn dependencies_end(self, scope: usize) -> u32 {
        let sheet = self.sheet;
        let mut scopes = sheet.scopes.rows.iter().take(sheet.scopes.count as usize);
        let next = scopes.nth(scope.saturating_add(1));
        next.map_or(sheet.dependencies.count, |row| row.begin)
    }

    /// Writes a dependency: its declaration, and how many entries its path has.
    fn write_dependency<W: Write>(self, row: &DependencyRow, out: &mut W) -> io::Result<()> {
        let sheet = self.sheet;
        let Some(identifier) = sheet.identifiers.rows.get(row.identifier as usize) else {
            return Ok(());
        };
        let declaration = identifier.declaration;
        write!(
            out,
            ", depends on declaration {declaration} path {}",
            row.length
        )
    }
}
