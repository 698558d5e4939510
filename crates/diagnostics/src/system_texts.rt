//! The texts of the explanations of arguments, of a run and of the system: for each fault its cause and its fix. `scripts/faults` prints the list of
//! all faults from them.

use crate::texts::Explanation;
use faults::{RunFault, WriteCause};

/// The explanation of an argument without `=`.
pub fn argument_without_equals() -> Explanation {
    Explanation::new(
        "The argument has no `=`.",
        "Write the argument as NAME=LITERAL.",
    )
}

/// The explanation of an argument whose name is not an input of the plan.
pub fn argument_of_unknown_name() -> Explanation {
    Explanation::new(
        "The name is not an input of this plan; outputs cannot be set.",
        "Correct the name, or remove the argument.",
    )
}

/// The explanation of an argument whose name an earlier argument has.
pub fn argument_given_twice() -> Explanation {
    Explanation::new(
        "An earlier argument has given a value for this name.",
        "Give each name once.",
    )
}

/// The explanation of an argument whose literal cannot be read. The cause of the literal's fault says more than this one.
pub fn argument_with_bad_literal() -> Explanation {
    Explanation::new(
        "The literal of the argument cannot be read.",
        "Correct the literal at the mark. The shell removes a pair of quotes: write 'code=\"A\"' for the text A.",
    )
}

/// The explanation of a name that a table reads and that no argument sets.
pub fn missing_value() -> Explanation {
    Explanation::new(
        "A table reads this name, and no argument gives a value for it.",
        "Add the argument NAME=LITERAL.",
    )
}

/// The explanation of a run's fault.
pub fn run_explanation(fault: RunFault) -> Explanation {
    match fault {
        RunFault::Workers => Explanation::new(
            "The number of workers is not from 1 to 64.",
            "Use 1 to 64 workers.",
        ),
        RunFault::OutOfMemory => memory(),
        RunFault::Thread => Explanation::new(
            "The system cannot start another thread.",
            "Use fewer workers, or run again when fewer threads are active.",
        ),
        RunFault::Worn => Explanation::new(
            "The lock of the run has no ticket left.",
            "Divide the claims among several runs.",
        ),
        RunFault::Stopped => Explanation::new(
            "Another part of the program stopped the run.",
            "Run again.",
        ),
    }
}

/// The explanation of a report whose writing ended early.
pub fn write_explanation(cause: WriteCause) -> Explanation {
    match cause {
        WriteCause::Device => Explanation::new(
            "The output failed after it had taken the given number of bytes: the device is full, for example, or the pipe is closed.",
            "Free space or reconnect the output, then run again.",
        ),
        WriteCause::OutOfMemory => memory(),
    }
}

/// The explanation of a file that cannot be read.
pub fn unreadable_file() -> Explanation {
    Explanation::new(
        "The file cannot be read.",
        "Name an existing file that you may read; it must not be a folder.",
    )
}

/// The explanation of a file for results that cannot be written.
pub fn unwritable_output() -> Explanation {
    Explanation::new(
        "The file of `--output` cannot be created or replaced. An existing file is unchanged.",
        "Name a file in an existing folder that you may write to; it must not be a folder or a device.",
    )
}

/// The explanation of running out of memory. The program prints `no memory` for it, whatever the fault is that has this cause.
pub fn memory() -> Explanation {
    Explanation::new(
        "The system is out of memory.",
        "Free memory or raise the limit on it, then run again.",
    )
}
