//! The numbers, texts and lines of the faults of a run and of its report. The cases of the program
//! meet few of them.
use crate::testing::{expects, says};
use adjudicate::Stop;
use crew::RunFault;
use remit::WriteCause;
use std::alloc::Global;
use std::process::Abort;

/// The faults of a run with their numbers, texts, lines and exit statuses.
const RUN_FAULTS: &[(RunFault, u8, &str, &str, u8)] = &[
    (
        RunFault::Workers,
        1,
        "no worker, or too many workers",
        "run fault 1\n",
        1,
    ),
    (
        RunFault::OutOfMemory,
        2,
        "out of memory",
        "run fault 2\n",
        3,
    ),
    (
        RunFault::Thread,
        3,
        "a thread can't be started",
        "run fault 3\n",
        3,
    ),
    (
        RunFault::Worn,
        4,
        "the lock has no ticket left",
        "run fault 4\n",
        3,
    ),
    (
        RunFault::Stopped,
        5,
        "the run was stopped",
        "run fault 5\n",
        3,
    ),
];

fn is_shown(rt: &impl Abort, alloc: Global, fault: RunFault, text: &str) -> bool {
    let shown = format!(in alloc; "{fault}").expect(rt, "memory for a text");
    shown.as_str() == text
}

#[test]
fn faults_of_a_run(rt: HostRuntime) {
    for row in RUN_FAULTS {
        let (fault, number, text, line, status) = *row;
        expects(&rt, fault.number() == number, text);
        expects(&rt, is_shown(&rt, rt.alloc(), fault, text), text);
        expects(&rt, says(&Stop::Run(fault), line, status), line);
    }
    let no_memory = says(&Stop::from(RunFault::OutOfMemory), "no memory\n", 3);
    expects(&rt, no_memory, "the line and the status");
    expects(&rt, WriteCause::Device.number() == 1, "1 for the device");
    expects(&rt, WriteCause::OutOfMemory.number() == 2, "2 for memory");
}
