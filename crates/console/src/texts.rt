//! The help after the arguments.

pub const VALUE_EXAMPLE: &str = "Example:
  adjudicate value examples/first.toml x=10

An argument is a name, `=`, and an S-FEEL literal: 12.5, \"A\", true or
date(\"2024-02-29\"). Quote it for the shell. After `--` an argument can begin
with `-`.

With --rows the values come from a CSV file, whose first record names the
columns, and the outputs and a fault follow the fields of each row.";

pub const CHECK_EXAMPLE: &str = "Example:
  adjudicate check examples/first.toml

A line `gap` gives inputs that no rule of the table covers, with a region for
each input: <5, 5, ]5..10[ (both ends excluded), >10, not(\"A\") for any other
text, or - for all values. A line `overlap` gives two rules that can match
together. A line `wide` names a table with too many regions to list its gaps.

With --whole, a line `pends` gives a reason why claims pend, as the remittance
has it, and the values with which they do: a name without a cell may have any
value there. Values that no claim can have are left out.";

pub const RUN_EXAMPLE: &str = "Example:
  adjudicate run --plan examples/health_plan.toml --balances examples/balances.csv \\
    examples/clinic.csv examples/hospital.csv examples/laboratory.csv

The first file is provider 1, the second is provider 2, and so on, up to 64.
The remittance goes to standard output as CSV. It has one record for each
record of each file (paid, denied, pended, refused or late), and then one with
the totals.

Without --order, claims of different files are accepted in any order, so that
two runs may differ where a family has claims in several files. With --order
files all claims of a file come before those of the next one. With --order
service, of the next claims of all files the one with the earliest day of
service comes first, at the same day that of the earlier file. In either order
there is one remittance.";

pub const AUDIT_EXAMPLE: &str = "Example:
  adjudicate run --plan examples/health_plan.toml --order files \\
    --output remittance.csv examples/clinic.csv examples/laboratory.csv
  adjudicate audit --plan examples/health_plan.toml --order files \\
    --remittance remittance.csv examples/clinic.csv examples/laboratory.csv

Give the plan, the balances, the cutoff, the order and the files of the run.
The exit status is 0 if the remittance is the one of these texts in this order,
byte by byte. Otherwise it is 1, and the first record that differs is printed.";

pub const EXPLAIN_EXAMPLE: &str = "Example:
  adjudicate explain --plan examples/health_plan.toml --claim 2:1 \\
    examples/clinic.csv examples/laboratory.csv

--claim gives the number of a file on the command line and the number of a
record in it, both from 1, as the first two fields of the remittance do. With
--claim-id the first claim with the identifier is explained, with --member or
--family each claim of one, in the order of acceptance. Give the plan, the
balances, the cutoff, the order and the files of the run.

Each line is a fact: a step, the fact's name and its value. They say what came
before the claim, what each table reads and answers, each amount, what is left
after it, and the record of the remittance.";

pub const TEST_EXAMPLE: &str = "Example:
  adjudicate test examples/health_plan.toml examples/health_plan_tests.csv

The first record names the columns. A column with a name that the tables read
gives its value, as a claim file does. A column with the name of an output
expects the output's value: 62.5, true, LAB or 2024-07-01. An empty field
expects nothing. A list has semicolons between its values, and the list
without values is []. The column `fault` expects a fault, such as norule:3; an
empty field there, and a file without that column, expect no fault.

There is a line for each difference and for each row that can't be read, and
the last line has the counts. The exit status is 0 if each row is right.";

pub const COMPARE_EXAMPLE: &str = "Example:
  adjudicate compare examples/benefits_2024.toml examples/benefits_2025.toml

A line says what the plans answer otherwise, the old value and the new one, and
the values of names at which they do: a cell for each name that matters. Values
that no claim can have are left out. Where there is no such line, the plans
settle every claim alike.

With claim files and --order, the remittances of both plans are compared, record
by record.";

pub const NAMES_EXAMPLE: &str = "Example:
  adjudicate names examples/health_plan.toml

With --claims or --balances the output is the first record of such a file, to
begin one with.";

pub const SHOW_EXAMPLE: &str = "Example:
  adjudicate show examples/health_plan.toml
  adjudicate show --html --output plan.html examples/health_plan.toml

The page needs nothing but itself: it can be sent, stored and printed.";

pub const STATUSES: &str =
    "An error is one line on standard error. With --explain, before or after the
command, its cause and its fix follow (default on a terminal).

A file name can be `-` once per command; it means standard input.

Exit status: 0 success, 1 invalid input, 2 usage error,
3 system error (I/O, memory, threads).";
