//! The line of a library's error on standard error.

ghost use Rattle.std.specs.Prelude.{◌≡◌, ◌≢◌, IfErr, OnErr, OnOk};
ghost use Rattle.console.specs.declared.exit_status.ExitStatus.TheVariants.{Done};
ghost use Rattle.console.specs.ExitStatus.{code_of};

use console::ExitStatus;
use faults::{LINE_LIMIT_BYTES, Refusal};

/// The exit status of a command of the library. The line of an error is printed.
pub fn exit_status_of<R: Eprint, S: Refusal>(rt: &R, answer: &Result<(), S>) -> ExitStatus
    ensures done { OnOk answer.now (result ≡ Done) }
    ensures refused { IfErr answer.now (λ stop. code_of result ≡ S.status stop) }
    ensures not_done { OnErr answer.now (result ≢ Done) }
{
    match answer {
        Ok(()) => ExitStatus::Done,
        Err(stop) => report_error(rt, stop),
    }
}

/// Prints the line of an error of the library, and returns its status.
pub fn report_error<R: Eprint, S: Refusal>(rt: &R, stop: &S) -> ExitStatus
    ensures status { code_of result ≡ S.status stop.now }
    ensures refused { result ≢ Done }
{
    print_error_line(rt, stop);
    status_of(stop)
}

// No error has another number than these three.
fn status_of<S: Refusal>(stop: &S) -> ExitStatus
    ensures status { code_of result ≡ S.status stop.now }
    ensures refused { result ≢ Done }
{
    match stop.exit_status() {
        1 => ExitStatus::Refused,
        2 => ExitStatus::Usage,
        _ => ExitStatus::Resource,
    }
}

// If standard error fails, the status is the only report.
fn print_error_line<R: Eprint, S: Refusal>(rt: &R, stop: &S) {
    let mut line = [0u8; LINE_LIMIT_BYTES];
    let length = stop.put_line(&mut line);
    if let Ok(text) = str::from_utf8(&line[..length]) {
        let _ = rt.eprint(text);
    }
}
