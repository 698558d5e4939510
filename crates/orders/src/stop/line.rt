//! The texts of a run's errors, for a line on standard error.

ghost use Rattle.std.specs.Prelude.{◌≡◌, ◌≤◌, ◌++◌, length};
ghost use Rattle.orders.specs.Stop.{balance_fault_text, record_fault_text, run_fault_text, terms_fault_text};

use evaluation::ErrorLine;
use faults::{BalanceFault, RowFault, RunFault, TermsFault};

/// Writes the text of a fault of the terms to an empty line.
pub fn put_terms_fault(line: &mut ErrorLine, fault: &TermsFault)
    requires { length line.old ≡ 0 }
    ensures text { line.new ≡ line.old ++ terms_fault_text fault.now }
    ensures short { length line.new ≤ 100 }
{
    line.put("terms fault ");
    line.put_cause(fault.number());
    match fault {
        TermsFault::File { provider, fault } => {
            line.put(" file ");
            line.put_number(*provider);
            line.put(" cause ");
            line.put_cause(fault.number());
        }
        TermsFault::Balances(fault) => put_balance_fault(line, fault),
        _ => {}
    }
}

/// Writes the text of a fault of a run to an empty line.
pub fn put_run_fault(line: &mut ErrorLine, fault: &RunFault)
    requires { length line.old ≡ 0 }
    ensures text { line.new ≡ line.old ++ run_fault_text fault.now }
    ensures short { length line.new ≤ 100 }
{
    line.put("run fault ");
    line.put_cause(fault.number());
}

fn put_balance_fault(line: &mut ErrorLine, fault: &BalanceFault)
    requires { length line.old ≤ 14 }
    ensures text { line.new ≡ line.old ++ balance_fault_text fault.now }
    ensures short { length line.new ≤ 100 }
{
    match fault {
        BalanceFault::File(fault) => {
            line.put(" cause ");
            line.put_cause(fault.number());
        }
        BalanceFault::Row { number, fault } => put_record_fault(line, *number, fault),
        BalanceFault::OutOfMemory => {}
    }
}

fn put_record_fault(line: &mut ErrorLine, number: usize, fault: &RowFault)
    requires { length line.old ≤ 14 }
    ensures text { line.new ≡ line.old ++ record_fault_text number fault.now }
    ensures short { length line.new ≤ 100 }
{
    let RowFault { column, cause } = *fault;
    line.put(" record ");
    line.put_number(number);
    line.put(" cause ");
    line.put_cause(cause.number());
    line.put(" column ");
    line.put_number(column);
}
