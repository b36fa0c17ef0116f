//! What every sheet has, whatever records built it.

ghost use Rattle.screen.specs.Laws.{NewFormed, KeptBySteps};
ghost use Rattle.screen.specs.MergeLaws.{ReadsSame, CountsAddUp, FlattenedExactly, FormedAfter, TargetsUsed, NeverBoth};
ghost use Rattle.screen.specs.MergeSamples.{SamplesHold};
ghost use Rattle.screen.specs.RunSamples.{RunSamplesHold};
ghost use Rattle.screen.specs.RunLaws.{AlwaysFormed, AlwaysReadAsLog, OpensAlwaysAddUp, MergesAlwaysLawful, RunsAreLawful, StepButMerge};

/// A sheet that records build is well-formed: a new one is, and each record keeps it so.
pub fn formed_stands()
    ensures { NewFormed × KeptBySteps }
{}

/// Every sample thread answers as it should.
pub fn samples_stand()
    ensures { SamplesHold }
{}

/// A Merge leaves the tree without its Scopes as it reads.
pub fn reading_stands()
    ensures { ReadsSame }
{}

/// A Merge's two numbers are the Scopes that it made joined and flattened, and the others stay as they were.
pub fn counts_stand()
    ensures { CountsAddUp }
{}

/// A Merge flattens a Scope exactly when the rule calls the nearest Scope above, as found, and it the same.
pub fn flattened_stand()
    ensures { FlattenedExactly }
{}

/// A well-formed sheet with only the body open is well-formed after a Merge.
pub fn merge_formed_stands()
    ensures { FormedAfter }
{}

/// The targets between a joined Scope and the Scope before it are last used before its end, and its keeper's, or never.
pub fn targets_stand()
    ensures { TargetsUsed }
{}

/// Scopes side by side with the same entries, no reassignments and an eligible first do not both outlast a Merge.
pub fn sides_stand()
    ensures { NeverBoth }
{}

/// Every sample run is told, logged and counted as it should be, a refused Merge among them.
pub fn run_samples_stand()
    ensures { RunSamplesHold }
{}

/// Every sheet that a run of records reaches is well-formed, with no node over 64 levels below the body, and no record is told that tables are not sound.
pub fn always_formed_stands()
    ensures { AlwaysFormed }
{}

/// After any run the tree without its Scopes reads as the log.
pub fn log_stands()
    ensures { AlwaysReadAsLog }
{}

/// Over any run the Scopes that were opened are those that stand and those that the Merges answered as joined and flattened.
pub fn opens_stand()
    ensures { OpensAlwaysAddUp }
{}

/// Each accepted Merge of any run flattens just what it should, and keeps the laws of targets and of Scopes side by side.
pub fn merges_stand()
    ensures { MergesAlwaysLawful }
{}

/// Every run of records from a new sheet keeps all the laws over runs at once.
pub fn runs_stand()
    ensures { RunsAreLawful }
{}

/// What is built on the tables is a run's step, but for a Merge, which is refused with 7 until it is built there too.
pub fn step_but_merge_stands()
    ensures { StepButMerge }
{}
