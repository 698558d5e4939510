//! A line for standard error, which is built in a buffer of fixed size and allocates nothing.

ghost use Rattle.std.specs.Prelude.{◌≡◌, ℕ, ◌+◌, ◌<◌, ◌≤◌, ◌++◌, [], List, codes, decimal, length, take};
ghost use Rattle.faults.specs.ReasonText.{reason_text};
ghost use Rattle.evaluation.specs.Stop.{plan_fault_text, argument_fault_text, cell_fault_text, fault_text};

use super::ArgumentFault;
use dtable::{PlanCause, PlanFault};
use faults::{LINE_LIMIT_BYTES, Reason};
use feel_tests::CellFault;
use itoa::Buffer;
use std::marker::Model;
use tables::Fault;

/// The beginning of a line, of at most `LINE_LIMIT_BYTES` bytes. Contracts see it as a list of
/// bytes.
#[derive(Drop)]
pub struct ErrorLine {
    bytes: [u8; LINE_LIMIT_BYTES],
    length: usize,
}

impl Model for ErrorLine {
    ghost use Rattle.std.specs.Prelude.{List, ℕ, ◌≤◌, take};
    ghost use Rattle.faults.specs.declared.refusal.TheConstants.{LINE_LIMIT_BYTES};

    ghost Value = { List ℕ };

    ghost view = { λ line. take line.length line.bytes };

    ghost invariant = { λ line. line.length ≤ LINE_LIMIT_BYTES };
}

impl ErrorLine {
    /// Returns an empty line.
    pub fn new() -> Self
        ensures { result ≡ [] }
    {
        ErrorLine {
            bytes: [0; LINE_LIMIT_BYTES],
            length: 0,
        }
    }

    /// Appends a text.
    pub fn put(&mut self, text: &str)
        requires { length self.old + length text.now ≤ LINE_LIMIT_BYTES }
        ensures { self.new ≡ self.old ++ text.now }
    {
        let end = self.length + text.len();
        self.bytes[self.length..end].copy_from_slice(text.as_bytes());
        self.length = end;
    }

    /// Appends the decimal digits of a number.
    pub fn put_number(&mut self, number: usize)
        requires { length self.old + 20 ≤ LINE_LIMIT_BYTES }
        ensures text { self.new ≡ self.old ++ decimal number }
        ensures short { length self.new ≤ length self.old + 20 }
    {
        self.put(Buffer::new().format(number));
    }

    /// Appends the number of a cause, which has one or two digits.
    pub fn put_cause(&mut self, number: u8)
        requires small { number < 100 }
        requires room { length self.old + 2 ≤ LINE_LIMIT_BYTES }
        ensures text { self.new ≡ self.old ++ decimal number }
        ensures short { length self.new ≤ length self.old + 2 }
    {
        self.put(Buffer::new().format(number));
    }

    /// Copies the line to the start of the buffer and returns its length in bytes.
    pub fn copy_to(&self, buffer: &mut [u8; LINE_LIMIT_BYTES]) -> usize
        ensures fits { result ≤ LINE_LIMIT_BYTES }
        ensures written { take result buffer.new ≡ self.now }
    {
        *buffer = self.bytes;
        self.length
    }

    /// Writes the text of a plan's fault to an empty line.
    pub fn put_plan_fault(&mut self, fault: &PlanFault)
        requires { length self.old ≡ 0 }
        ensures text { self.new ≡ self.old ++ plan_fault_text fault.now }
        ensures short { length self.new ≤ 126 }
    {
        self.put("plan fault ");
        self.put_cause(fault.cause.number());
        self.put_numbered(" table ", fault.table);
        self.put_numbered(" rule ", fault.rule);
        self.put_numbered(" column ", fault.column);
        if let PlanCause::Cell(cell) = &fault.cause {
            self.put_cell_fault(cell);
        }
    }

    /// Writes the text of an argument's fault to an empty line.
    pub fn put_argument_fault(&mut self, number: usize, fault: &ArgumentFault)
        requires { length self.old ≡ 0 }
        ensures text { self.new ≡ self.old ++ argument_fault_text number fault.now }
        ensures short { length self.new ≤ 100 }
    {
        self.put_numbered("argument ", number);
        self.put(" fault ");
        self.put_cause(fault.number());
        if let ArgumentFault::Literal(cell) = fault {
            self.put_cell_fault(cell);
        }
    }

    /// Writes the text of the tables' fault to an empty line.
    pub fn put_tables_fault(&mut self, fault: &Fault)
        requires { length self.old ≡ 0 }
        ensures text { self.new ≡ self.old ++ (codes "fault " ++ fault_text fault.now) }
        ensures short { length self.new ≤ 100 }
    {
        self.put("fault ");
        match Reason::of(*fault) {
            Some(reason) => self.put_reason(reason),
            None => self.put("memory"),
        }
    }

    fn put_reason(&mut self, reason: Reason)
        requires { length self.old + 49 ≤ LINE_LIMIT_BYTES }
        ensures text { self.new ≡ self.old ++ reason_text reason }
        ensures short { length self.new ≤ length self.old + 49 }
    {
        self.put(reason.word());
        self.put_numbered(":", reason.place());
        if let Some(column) = reason.column() {
            self.put_numbered(":", column);
        }
    }

    pub(crate) fn put_numbered(&mut self, mark: &str, number: usize)
        requires { length self.old + (length mark.now + 20) ≤ LINE_LIMIT_BYTES }
        ensures text { self.new ≡ self.old ++ (mark.now ++ decimal number) }
        ensures short { length self.new ≤ length self.old + (length mark.now + 20) }
    {
        self.put(mark);
        self.put_number(number);
    }

    fn put_cell_fault(&mut self, fault: &CellFault)
        requires { length self.old + 32 ≤ LINE_LIMIT_BYTES }
        ensures text { self.new ≡ self.old ++ cell_fault_text fault.now }
        ensures short { length self.new ≤ length self.old + 32 }
    {
        self.put(" cell ");
        self.put_cause(fault.cause.number());
        self.put_numbered(" at ", fault.at);
    }
}
