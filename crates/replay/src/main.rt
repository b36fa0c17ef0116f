//! Replays the cases of its data on new sheets, and compares what came of each with what its file expects.

#![tactic(auto)]

mod bytes;
mod case;
mod failure;
mod play;

use case::Case;
use failure::Failure;
use play::Difference;
use programs::failed;
use std::fs;
use std::process::ExitCode;

/// The files of cases.
const FILES: [&str; 6] = [
    "accepted.cases",
    "fields.cases",
    "rows.cases",
    "limits.cases",
    "nodes.cases",
    "blocks.cases",
];

/// How many cases were replayed, and how many of them differ.
#[derive(Clone, Copy, Debug, Default, PartialEq, Eq)]
struct Tally {
    cases: u32,
    differing: u32,
}

/// Text of the program's own, which is all ASCII.
fn shown(bytes: &[u8]) -> &str {
    std::str::from_utf8(bytes).unwrap_or("(not text)\n")
}

/// Prints what came of a case. Answers whether it is as expected.
fn report(rt: &HostRuntime, case: &Case) -> Result<bool, Failure> {
    let name = case.name.as_str();
    let Some(Difference { pass, got }) = case.play(rt.alloc())? else {
        println!(rt; "ok {name}")?;
        return Ok(true);
    };
    let expected = case.expected.as_str();
    let got = shown(got.as_slice());
    println!(rt; "DIFFERS {name} ({pass})\nexpected:\n{expected}got:\n{got}")?;
    Ok(false)
}

/// Replays the cases of a text.
fn replay_text(rt: &HostRuntime, file: &str, text: &str, tally: &mut Tally) -> Result<(), Failure> {
    let heap = rt.alloc();
    let mut case = Case::new(heap);
    for (i, line) in text.lines().enumerate() {
        match case.read(heap, line) {
            Ok(false) => {}
            Ok(true) => {
                let same = report(rt, &case)?;
                tally.cases = tally.cases.saturating_add(1);
                tally.differing = tally.differing.saturating_add(u32::from(!same));
                case = Case::new(heap);
            }
            Err(failure) => {
                let number = i.saturating_add(1);
                eprintln!(rt; "replay: {file}, line {number}: {failure}")?;
                return Err(failure);
            }
        }
    }
    if case.is_begun() {
        Err(Failure::Unended)
    } else {
        Ok(())
    }
}

/// Replays the cases of every file.
fn replay(rt: &HostRuntime) -> Result<Tally, Failure> {
    let mut tally = Tally::default();
    for file in FILES {
        let text = fs::read_to_string(rt, file)?;
        replay_text(rt, file, text.as_str(), &mut tally)?;
    }
    Ok(tally)
}

/// Prints how many cases there are, and how many of them differ. Where one does, the program fails.
fn finish(rt: &HostRuntime, tally: Tally) -> ExitCode {
    let printed = println!(rt; "{} cases, {} differ", tally.cases, tally.differing);
    if printed.is_ok() && tally.differing == 0 {
        ExitCode::SUCCESS
    } else {
        ExitCode::FAILURE
    }
}

fn main(rt: HostRuntime) -> ExitCode {
    match replay(&rt) {
        Ok(tally) => finish(&rt, tally),
        Err(failure) => failed(&rt, "replay", &failure),
    }
}
