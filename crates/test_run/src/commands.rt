//! The commands over writers that are full after any number of bytes, over input that is refused, and
//! with memory refused.
use crate::testing::{expects, expects_at, says};
use crate::writers::{Narrow, WhenFull, compare_received, is_filled, narrow_writer};
use adjudicate::{RunInput, Stop, do_check, do_errors_check, do_run, do_value};
use fixpoint::Out;
use std::process::Abort;
use std::sync::Wait;
use std::thread::Threads;
use test_fixtures::{both_files, first_file, health_plan, remittance};
use texts::{crossed_plan, errors, gaps, member_twice, no_roles, some_errors, two_gaps, values};

mod texts;

// A command and its input.
#[derive(Clone, Copy)]
enum Command<'a> {
    /// The value of a plan with two outputs for two arguments.
    Value,
    /// The check of a plan with two gaps.
    Check,
    /// The check of a plan with gaps and overlaps, for those that are errors.
    CheckErrors,
    /// A run.
    Run(RunInput<'a>),
}

fn start<R: Threads + Wait + Sync + AllocGlobal>(
    rt: &R,
    command: Command,
    out: &mut Out<Narrow>,
) -> Result<(), Stop> {
    match command {
        Command::Value => do_value(rt.alloc(), crossed_plan(), &["a=6", "b=1"], out),
        Command::Check => do_check(rt.alloc(), two_gaps(), out),
        Command::CheckErrors => do_errors_check(rt.alloc(), some_errors(), out),
        Command::Run(input) => do_run(rt, input, out),
    }
}

// A writer with room for `limit` bytes receives the whole text, or exactly these first bytes of it.
fn fills<R: Threads + Wait + Abort + Sync + AllocGlobal>(
    rt: &R,
    command: Command,
    limit: usize,
    width: usize,
    when_full: WhenFull,
    text: &str,
) {
    let mut out = narrow_writer(rt, rt.alloc(), limit, width, when_full);
    let answer = start(rt, command, &mut out);
    let is_so = is_filled(answer, out, limit, text.as_bytes());
    expects_at(rt, is_so, limit);
}

// Tries each room up to that for the whole text.
fn fills_each<R: Threads + Wait + Abort + Sync + AllocGlobal>(
    rt: &R,
    command: Command,
    width: usize,
    text: &str,
) {
    for limit in 0..=text.len() {
        fills(rt, command, limit, width, WhenFull::Fails, text);
        fills(rt, command, limit, width, WhenFull::TakesNothing, text);
    }
}

// A run of the health plan by four workers, over both files.
fn run_of_both() -> Command<'static> {
    Command::Run(RunInput {
        plan: health_plan().as_bytes(),
        balances: None,
        files: both_files(),
        cutoff: None,
        workers: 4,
    })
}

#[test]
fn a_full_writer_has_the_first_bytes(rt: HostRuntime) {
    for width in [1, 3, 1_024] {
        fills_each(&rt, Command::Value, width, values());
        fills_each(&rt, Command::Check, width, gaps());
    }
    fills_each(&rt, Command::CheckErrors, 1_024, errors());
}

#[test]
fn a_full_writer_has_the_first_bytes_of_a_remittance(rt: HostRuntime) {
    fills_each(&rt, run_of_both(), 7, remittance());
    fills_each(&rt, run_of_both(), 1_024, remittance());
}

// Returns whether the command has ended with this line and status, and the writer has received
// these bytes.
fn is_stopped(
    answer: Result<(), Stop>,
    out: Out<Narrow>,
    bytes: &str,
    line: &str,
    status: u8,
) -> bool {
    let received = compare_received(out, bytes.as_bytes());
    let says_so = match answer {
        Ok(()) => false,
        Err(stop) => says(&stop, line, status),
    };
    says_so && received.is_front && received.count == bytes.len()
}

// Requires that the command ends with this line and status, and that a writer with room for
// `limit` bytes has then received these bytes.
fn stops<R: Threads + Wait + Abort + Sync + AllocGlobal>(
    rt: &R,
    command: Command,
    limit: usize,
    bytes: &str,
    line: &str,
    status: u8,
) {
    let mut out = narrow_writer(rt, rt.alloc(), limit, 1_024, WhenFull::Fails);
    let answer = start(rt, command, &mut out);
    expects(rt, out.failed() == (bytes.len() == limit), line);
    expects(rt, is_stopped(answer, out, bytes, line, status), line);
}

#[test]
fn a_write_fault_has_its_line(rt: HostRuntime) {
    stops(&rt, Command::Check, 5, "gap t", "write fault at 5\n", 3);
    let front = "provider,record,claim,member,status,r";
    stops(&rt, run_of_both(), 37, front, "write fault at 37\n", 3);
}

// The run ends with this line and status 1, and writes nothing.
fn refuses<R: Threads + Wait + Abort + Sync + AllocGlobal>(
    rt: &R,
    plan: &str,
    balances: Option<&[u8]>,
    files: &[&[u8]],
    workers: usize,
    line: &str,
) {
    let run = Command::Run(RunInput {
        plan: plan.as_bytes(),
        balances,
        files,
        cutoff: None,
        workers,
    });
    stops(rt, run, 64, "", line, 1);
}

// Each line has one fault less than the line before it.
#[test]
fn the_first_fault_of_a_run_is_reported(rt: HostRuntime) {
    let (plan, twice, files) = (health_plan(), Some(member_twice()), both_files());
    let no_version = "plan fault 2 table 0 rule 0 column 0\n";
    refuses(&rt, "fields = []\n", twice, &[], 0, no_version);
    refuses(&rt, no_roles(), twice, &[], 0, "terms fault 1\n");
    refuses(&rt, plan, twice, &[], 0, "terms fault 2\n");
    let no_billed: [&[u8]; 2] = [first_file(), b"claim,member,service,code\n"];
    let column = "terms fault 3 file 2 cause 3\n";
    refuses(&rt, plan, twice, &no_billed, 0, column);
    let repeated = "terms fault 4 record 2 cause 8 column 1\n";
    refuses(&rt, plan, twice, files, 0, repeated);
    for workers in [0, 65, usize::MAX] {
        refuses(&rt, plan, None, files, workers, "run fault 1\n");
    }
}

// A value and a check are made before their first byte is written. If memory runs out in a run, some
// first bytes may be written; if a thread cannot be started, none are.
fn lacks_memory(stop: &Stop, count: usize, is_run: bool) -> bool {
    if says(stop, "no memory\n", 3) {
        return is_run || count == 0;
    }
    is_run && count == 0 && says(stop, "run fault 3\n", 3)
}

fn is_whole_or_lacks_memory(
    answer: Result<(), Stop>,
    out: Out<Narrow>,
    text: &[u8],
    is_run: bool,
) -> bool {
    let received = compare_received(out, text);
    let is_told = match answer {
        Ok(()) => received.count == text.len(),
        Err(stop) => lacks_memory(&stop, received.count, is_run),
    };
    is_told && received.is_front && !received.has_failed
}

// A test that calls this function runs with each allocation refused in turn. All of them but the
// writer's are the command's; which of a run's starts a thread differs from run to run.
fn writes_or_lacks_memory<R: Threads + Wait + Abort + Sync + AllocGlobal>(
    rt: &R,
    command: Command,
    text: &str,
) {
    let mut out = narrow_writer(rt, rt.alloc(), text.len(), 1_024, WhenFull::Fails);
    let answer = start(rt, command, &mut out);
    let is_run = matches!(command, Command::Run(_));
    let holds = is_whole_or_lacks_memory(answer, out, text.as_bytes(), is_run);
    expects(rt, holds, "the text, or a lack of memory");
}

#[test]
fn a_value_and_a_check_or_no_memory(rt: HostRuntime) {
    writes_or_lacks_memory(&rt, Command::Value, values());
    writes_or_lacks_memory(&rt, Command::Check, gaps());
}

#[test]
fn a_run_or_no_memory(rt: HostRuntime) {
    writes_or_lacks_memory(&rt, run_of_both(), remittance());
}
