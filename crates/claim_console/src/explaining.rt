//! Error lines of the commands over a plan and files, and their explanations.

ghost use Rattle.std.specs.Prelude.{◌≡◌, ◌≢◌};
ghost use Rattle.orders.specs.Stop.{status_of};
ghost use Rattle.console.specs.declared.exit_status.ExitStatus.TheVariants.{Done};
ghost use Rattle.console.specs.ExitStatus.{code_of};

use claim_diagnostics::{FileKind, explain_file, explain_record, terms_explanation};
use claim_gate::TermsFault;
use console::ExitStatus;
use console::names::{BALANCES, FILE};
use diagnostics::{Message, explain, memory, run_explanation};
use intake_csv::BalanceFault;
use orders::Stop;
use std::alloc::{AllocError, Global};
use value_command::{About, exit_status_of, print_message, value_message};

/// What an explanation needs of a command over a plan and files.
#[derive(Clone, Copy)]
pub struct AboutFiles<'a, 'w> {
    /// The command line, and the plan.
    pub plan: About<'a, 'w>,
    /// The text of the balances; empty if there are none.
    pub balances: &'a [u8],
    /// The texts of the providers' files, in their order.
    pub files: &'a [Vec<u8>],
}

impl<'a, 'w> AboutFiles<'a, 'w> {
    /// A command over a plan alone.
    pub fn of_plan(plan: About<'a, 'w>) -> AboutFiles<'a, 'w> {
        AboutFiles {
            plan,
            balances: &[],
            files: &[],
        }
    }

    /// The text of a provider's file. Providers count from 1.
    pub fn file(&self, number: usize) -> &[u8] {
        match self.files.get(number.saturating_sub(1)) {
            Some(text) => text.as_slice(),
            None => &[],
        }
    }
}

/// Prints an error of the library, and returns its status.
pub fn refuse<R: Eprint + AllocGlobal>(rt: &R, about: &AboutFiles, stop: Stop) -> ExitStatus
    ensures status { code_of result ≡ status_of stop }
    ensures not_done { result ≢ Done }
{
    let answer = Err(stop);
    let status = exit_status_of(rt, &answer);
    explain_refusal(rt, about, &answer);
    status
}

/// Prints the explanation of an error, if there is one and the caller wants it.
pub fn explain_refusal<R: Eprint + AllocGlobal>(
    rt: &R,
    about: &AboutFiles,
    answer: &Result<(), Stop>,
) {
    if let Err(stop) = answer
        && about.plan.explains
    {
        print_message(rt, message_of(rt.alloc(), about, stop));
    }
}

fn message_of(alloc: Global, about: &AboutFiles, stop: &Stop) -> Result<Message, AllocError> {
    match stop {
        Stop::Value(stop) => value_message(alloc, &about.plan, stop),
        Stop::Terms(fault) => terms_message(alloc, about, fault),
        Stop::Run(fault) => explain(alloc, run_explanation(*fault)),
    }
}

fn terms_message(
    alloc: Global,
    about: &AboutFiles,
    fault: &TermsFault,
) -> Result<Message, AllocError> {
    match fault {
        TermsFault::File { provider, fault } => {
            let name = about.plan.word_at(FILE, *provider);
            let text = about.file(*provider);
            let plan = about.plan.plan;
            explain_file(alloc, name, text, plan, FileKind::Claims, *fault)
        }
        TermsFault::Balances(fault) => balances_message(alloc, about, fault),
        TermsFault::NoRoles | TermsFault::Files | TermsFault::OutOfMemory => {
            explain(alloc, terms_explanation(fault))
        }
    }
}

fn balances_message(
    alloc: Global,
    about: &AboutFiles,
    fault: &BalanceFault,
) -> Result<Message, AllocError> {
    let name = about.plan.word(BALANCES);
    let text = about.balances;
    match fault {
        BalanceFault::File(fault) => {
            let plan = about.plan.plan;
            explain_file(alloc, name, text, plan, FileKind::Balances, *fault)
        }
        BalanceFault::Row { number, fault } => explain_record(alloc, name, text, *number, fault),
        BalanceFault::OutOfMemory => explain(alloc, memory()),
    }
}
