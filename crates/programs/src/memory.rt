//! The memory that a program lends to its sheet.

ghost use Rattle.std.specs.Prelude.{◌≡◌, IfOk, vec_len};

use screen::{DependencyRow, IdentifierRow, Line, PathRow, ReadRow, ShapeRow, TypeRow, ValueRow};
use sheet::{DeclarationRow, Limited, NodeRow, ScopeRow, Sheet, Table, Work};
use std::alloc::{AllocError, Global};

/// The rows of every table.
#[derive(Drop)]
pub struct Memory {
    types: Vec<TypeRow>,
    identifiers: Vec<IdentifierRow>,
    paths: Vec<PathRow>,
    scopes: Vec<ScopeRow>,
    dependencies: Vec<DependencyRow>,
    declarations: Vec<DeclarationRow>,
    reads: Vec<ReadRow>,
    values: Vec<ValueRow>,
    shapes: Vec<ShapeRow>,
    nodes: Vec<NodeRow>,
    lines: Vec<Line>,
    uses: Vec<u32>,
    sources: Vec<u32>,
    targets: Vec<u8>,
    scratch: Vec<DependencyRow>,
}

/// A sheet and its work tables in memory that a program lends. They are taken apart before they are used: of a value that is owned, the borrow
/// checker does not cover `lent.sheet.start(&lent.work)`.
#[derive(Drop)]
pub struct Lent<'a> {
    pub sheet: Sheet<'a>,
    pub work: Work<'a>,
}

impl Memory {
    /// Rows of zeros, as many as each table's limit.
    pub fn new(heap: Global) -> Result<Memory, AllocError> {
        Ok(Memory {
            types: rows(heap)?,
            identifiers: rows(heap)?,
            paths: rows(heap)?,
            scopes: rows(heap)?,
            dependencies: rows(heap)?,
            declarations: rows(heap)?,
            reads: rows(heap)?,
            values: rows(heap)?,
            shapes: rows(heap)?,
            nodes: rows(heap)?,
            lines: zeros(heap, NodeRow::LIMIT)?,
            uses: zeros(heap, DeclarationRow::LIMIT)?,
            sources: zeros(heap, DeclarationRow::LIMIT)?,
            targets: zeros(heap, DeclarationRow::LIMIT)?,
            scratch: rows(heap)?,
        })
    }

    /// Lends the rows to a sheet, which is still to be started.
    pub fn lend(&mut self) -> Lent<'_> {
        let sheet = Sheet {
            types: Table::over(self.types.as_mut_slice()),
            identifiers: Table::over(self.identifiers.as_mut_slice()),
            paths: Table::over(self.paths.as_mut_slice()),
            scopes: Table::over(self.scopes.as_mut_slice()),
            dependencies: Table::over(self.dependencies.as_mut_slice()),
            declarations: Table::over(self.declarations.as_mut_slice()),
            reads: Table::over(self.reads.as_mut_slice()),
            values: Table::over(self.values.as_mut_slice()),
            shapes: Table::over(self.shapes.as_mut_slice()),
            nodes: Table::over(self.nodes.as_mut_slice()),
            innermost: 0,
        };
        let work = Work {
            lines: self.lines.as_mut_slice(),
            uses: self.uses.as_mut_slice(),
            sources: self.sources.as_mut_slice(),
            targets: self.targets.as_mut_slice(),
            scratch: self.scratch.as_mut_slice(),
        };
        Lent { sheet, work }
    }
}

/// So many zeros.
fn zeros<T: Copy + Default>(heap: Global, count: u32) -> Result<Vec<T>, AllocError>
    ensures { IfOk result (λ made. vec_len made ≡ count) }
{
    vec![in heap; T::default(); count as usize]
}

/// Rows of zeros, as many as their table's limit.
fn rows<T: Limited + Default>(heap: Global) -> Result<Vec<T>, AllocError>
    ensures { IfOk result (λ made. vec_len made ≡ T.LIMIT) }
{
    zeros(heap, T::LIMIT)
}
