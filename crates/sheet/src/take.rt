//! One record on a sheet.

ghost use Rattle.std.specs.Prelude.{◌≡◌, ◌<◌, true, ◌++◌, length, drop, is_ok, Ok, Err, Decides, MatchResult};
ghost use Rattle.screen.specs.declared.answer.Refusal.TheVariants.{Short, Unsound};
ghost use Rattle.block.specs.Fields.{fields_of};
ghost use Rattle.screen.specs.State.{State, new};
ghost use Rattle.screen.specs.Step.{listing};
ghost use Rattle.sheet.specs.Tables.{memory, work_memory};
ghost use Rattle.sheet.specs.Holds.{Holds, Sound};
ghost use Rattle.sheet.specs.Kept.{Long, WorkLong, AllLong, RestKept, Ready};
ghost use Rattle.sheet.specs.Written.{cleared};
ghost use Rattle.sheet.specs.Takes.{Takes, Keeps, with_lines};

use crate::list::list;
use crate::rows::NodeRow;
use crate::sheet::{Sheet, Work};
use crate::table::Limited;
use block::Record;
use screen::{Answer, DependencyRow, Entry, NONE, Refusal};

/// As many declarations as identifiers may name.
const DECLARATIONS: usize = 1024;

/// Whether each of the sheet's tables is as long as its limit.
fn is_long(s: &Sheet<'_>) -> bool
    ensures { Decides result (Long (memory s.now)) }
{
    s.types.is_long()
        && s.identifiers.is_long()
        && s.paths.is_long()
        && s.scopes.is_long()
        && s.dependencies.is_long()
        && s.declarations.is_long()
        && s.reads.is_long()
        && s.values.is_long()
        && s.shapes.is_long()
        && s.nodes.is_long()
}

/// Whether each work table is as long as its limit: a line for each node, a use, a source and a target for each declaration.
fn is_work_long(w: &Work<'_>) -> bool
    ensures { Decides result (WorkLong (work_memory w.now)) }
{
    w.lines.len() >= NodeRow::LIMIT as usize
        && w.uses.len() >= DECLARATIONS
        && w.sources.len() >= DECLARATIONS
        && w.targets.len() >= DECLARATIONS
        && w.scratch.len() >= DependencyRow::LIMIT as usize
}

/// Fails where a table is shorter than its limit.
fn lent_enough(s: &Sheet<'_>, w: &Work<'_>) -> Result<(), Refusal>
    ensures { MatchResult result (λ _. AllLong (memory s.now) (work_memory w.now)) (λ r. (r ≡ Short) × (AllLong (memory s.now) (work_memory w.now) → ⊥)) }
{
    if is_long(s) && is_work_long(w) {
        Ok(())
    } else {
        Err(Refusal::Short)
    }
}

impl Sheet<'_> {
    /// Lists the tree into the lines.
    fn list(&self, work: &mut Work<'_>) -> u32
        requires sound { Sound (memory self.now) }
        requires long { WorkLong (work_memory work.old) }
        ensures long { WorkLong (work_memory work.new) }
        ensures lines { (σ : State) → Holds (memory self.now) σ
            → (result ≡ length (listing σ)) × (work_memory work.new ≡ with_lines (work_memory work.old) (listing σ ++ drop result (work_memory work.old).lines)) }
    {
        list(self.nodes.put(), self.scopes.put(), work.lines)
    }

    /// Takes one record on tables that are known to be sound, so that they need no examination.
    pub fn take_sound(&mut self, work: &mut Work<'_>, record: [u8; 16]) -> Result<Answer, Refusal>
        requires { Ready (memory self.old) (work_memory work.old) }
        ensures ready { Ready (memory self.new) (work_memory work.new) }
        ensures takes { (σ : State) → Holds (memory self.old) σ
            → Takes σ (fields_of «record») (memory self.new) (work_memory work.old) (work_memory work.new) result }
        ensures keeps { Keeps (memory self.old) (memory self.new) (work_memory work.old) (work_memory work.new) result }
    {
        let made = Record::from(record);
        // a `?` finds no proof here: the checker is not told which modules hold the types inside an entry
        let entry = match Entry::try_from(made) {
            Ok(entry) => entry,
            Err(refusal) => return Err(refusal),
        };
        // no `?`: an edit that changes what is answered here would have to take it away, and be refused for that
        if let Err(refusal) = self.admits(&entry) {
            return Err(refusal);
        }
        if let Entry::List = entry {
            return Ok(Answer::Listed(self.list(work)));
        }
        self.write(made, &entry);
        Ok(Answer::Accepted)
    }

    /// Takes one record on any tables at all: they are examined first.
    pub fn take(&mut self, work: &mut Work<'_>, record: [u8; 16]) -> Result<Answer, Refusal>
        ensures short { (AllLong (memory self.old) (work_memory work.old) → ⊥) → result ≡ Err Short }
        ensures unsound { AllLong (memory self.old) (work_memory work.old) → (Sound (memory self.old) → ⊥) → result ≡ Err Unsound }
        ensures takes { AllLong (memory self.old) (work_memory work.old) → (σ : State) → Holds (memory self.old) σ
            → Takes σ (fields_of «record») (memory self.new) (work_memory work.old) (work_memory work.new) result }
        ensures keeps { Keeps (memory self.old) (memory self.new) (work_memory work.old) (work_memory work.new) result }
        ensures ready { Ready (memory self.old) (work_memory work.old) → Ready (memory self.new) (work_memory work.new) }
    {
        lent_enough(self, work)?;
        if !self.is_sound() {
            return Err(Refusal::Unsound);
        }
        self.take_sound(work, record)
    }

    /// Makes a new sheet of memory that is long enough: no row, and the body alone.
    pub fn start(&mut self, work: &Work<'_>) -> Result<(), Refusal>
        ensures short { (AllLong (memory self.old) (work_memory work.now) → ⊥) → (result ≡ Err Short) × (memory self.new ≡ memory self.old) }
        ensures new { AllLong (memory self.old) (work_memory work.now) → (result ≡ Ok tt) × Holds (memory self.new) new × RestKept (memory self.old) (memory self.new) }
        ensures ready { is_ok result ≡ true → Ready (memory self.new) (work_memory work.now) }
    {
        lent_enough(self, work)?;
        self.clear();
        Ok(())
    }

    /// Counts no row but the body.
    fn clear(&mut self)
        requires { 0 < length (memory self.old).nodes.rows }
        ensures { memory self.new ≡ cleared (memory self.old) }
    {
        self.types.clear();
        self.identifiers.clear();
        self.paths.clear();
        self.scopes.clear();
        self.dependencies.clear();
        self.declarations.clear();
        self.reads.clear();
        self.values.clear();
        self.shapes.clear();
        self.nodes.clear();
        self.nodes.push(NodeRow::new(Record::default(), NONE));
        self.innermost = 0;
    }
}
