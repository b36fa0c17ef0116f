//! How a program ends that could not do its work.

ghost use Rattle.std.specs.Prelude.{◌≡◌};

use std::fmt::Display;
use std::process::ExitCode;

/// Says on standard error which program failed and why, where standard error takes it. The runtime would say it in words of its own, if
/// `main` returned the error.
pub fn failed<R: Eprint, E: Display>(rt: &R, program: &str, why: &E) -> ExitCode
    ensures { result ≡ ExitCode.FAILURE }
{
    let _ = eprintln!(rt; "{program}: {why}");
    ExitCode::FAILURE
}
