//! The location of a fault in a plan's text.
ghost use Rattle.std.specs.Prelude.{◌≡◌, ◌≢◌};

use faults::{Ordinal, PlanCause, PlanFault, RoleKey};
use feel_tests::{CellCause, CellFault};
use std::alloc::AllocError;

/// The location of a fault. Tables, rules and columns are numbered from 1, and 0 means that the
/// fault is in none.
#[derive(Clone, Copy)]
pub struct FaultLocation {
    pub table: usize,
    pub rule: usize,
    pub column: usize,
}

impl FaultLocation {
    /// The location of a fault that is in no table, rule or column.
    pub const TEXT: FaultLocation = FaultLocation {
        table: 0,
        rule: 0,
        column: 0,
    };

    pub fn in_table(self, table: Ordinal) -> FaultLocation
        ensures { result ≡ record self { table = table } }
    {
        FaultLocation {
            table: table.number(),
            ..self
        }
    }

    pub fn in_rule(self, rule: Ordinal) -> FaultLocation
        ensures { result ≡ record self { rule = rule } }
    {
        FaultLocation {
            rule: rule.number(),
            ..self
        }
    }

    pub fn in_column(self, column: Ordinal) -> FaultLocation
        ensures { result ≡ record self { column = column } }
    {
        FaultLocation {
            column: column.number(),
            ..self
        }
    }

    /// The location of a fault of a role, whose number stands for a column.
    pub fn of_role(role: RoleKey) -> FaultLocation {
        FaultLocation {
            column: usize::from(role.number()),
            ..FaultLocation::TEXT
        }
    }

    pub fn fault(self, cause: PlanCause) -> PlanFault
        ensures { result
            ≡ record { table = self.table; rule = self.rule; column = self.column; cause = cause } }
    {
        PlanFault {
            table: self.table,
            rule: self.rule,
            column: self.column,
            cause,
        }
    }

    /// Returns the fault of a cell or a literal at this location. A lack of memory has no location.
    pub fn cell_fault(self, fault: CellFault) -> PlanFault
        ensures memory { fault.cause ≡ CellCause.OutOfMemory
            → result.cause ≡ PlanCause.OutOfMemory }
        ensures other { result.cause ≢ PlanCause.OutOfMemory → result ≡ record {
          table = self.table;
          rule = self.rule;
          column = self.column;
          cause = PlanCause.Cell fault;
        } }
    {
        match fault.cause {
            CellCause::OutOfMemory => PlanFault::from(AllocError),
            _ => self.fault(PlanCause::Cell(fault)),
        }
    }
}
