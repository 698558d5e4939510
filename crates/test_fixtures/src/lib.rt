//! The example that the tests of several crates share: a plan, the files of two providers, and the
//! remittance of both.
//!
//! Each text is the result of a function, so that a caller is proved without the text.
#![tactic(auto)]

const HEALTH_PLAN: &str = r#"version = 1
fields = [{name = "code", kind = "text"}]

[roles]
cover = "covered"
fee = "fee"
deductible = "50"
copay = "10"
rate = "0.2"
oop_max = "60"
remarks = "note"

[[tables]]
inputs = [{name = "code"}]
outputs = [{name = "covered", kind = "flag"}, {name = "fee", kind = "number"}]
rules = [
  {when = ['"A"'], then = ['true', '100']},
  {when = ['"B"'], then = ['true', '40']},
  {when = ['"X"'], then = ['false', '0']},
]

[[tables]]
hit = "R"
inputs = [{name = "billed"}, {name = "met"}]
outputs = [{name = "note", kind = "text"}]
rules = [
  {when = ['>100', '-'], then = ['"OVER"']},
  {when = ['-', '>=50'], then = ['"MET"']},
]
"#;

/// A plan with a deductible of 50.00, a copay of 10.00, a coinsurance of 20 % and an out-of-pocket
/// maximum of 60.00. It covers the codes A and B up to their fees, does not cover X, and lists
/// remarks.
pub fn health_plan() -> &'static str {
    HEALTH_PLAN
}

const FAMILY_PLAN: &str = r#"version = 3
fields = [{name = "code", kind = "text"}]

[roles]
cover = "covered"
fee = "fee"
deductible = "50"
copay = "10"
rate = "0.2"
oop_max = "60"
remarks = "note"
family_deductible = "80"
family_oop_max = "100"

[[tables]]
inputs = [{name = "code"}]
outputs = [{name = "covered", kind = "flag"}, {name = "fee", kind = "number"}]
rules = [
  {when = ['"A"'], then = ['true', '100']},
  {when = ['"B"'], then = ['true', '40']},
  {when = ['"X"'], then = ['false', '0']},
]

[[tables]]
hit = "R"
inputs = [{name = "billed"}, {name = "met"}]
outputs = [{name = "note", kind = "text"}]
rules = [
  {when = ['>100', '-'], then = ['"OVER"']},
  {when = ['-', '>=50'], then = ['"MET"']},
]
"#;

/// The health plan with families: a claim is also subject to its family's deductible of 80.00 and
/// out-of-pocket maximum of 100.00.
pub fn family_plan() -> &'static str {
    FAMILY_PLAN
}

const FIRST_FILE: &[u8] = b"claim,member,service,billed,code
c1,M1,2024-01-05,120.00,A
c2,M1,2024-02-01,40.00,B
c3,M1,2024-02-02,40.00,Z
c4,M1,2024-03-01,100.00,A
";

/// Four claims of one member. The plan has no rule for the code of the third.
pub fn first_file() -> &'static [u8] {
    FIRST_FILE
}

const SECOND_FILE: &[u8] = b"claim,member,service,billed,code
d1,M2,2024-01-09,30.00,B
d2,M2,2024-01-10,9.999,B
d3,M2,2024-01-11,10.00,X
";

/// Three records of another member. The second is refused, because its amount is not in whole
/// cents.
pub fn second_file() -> &'static [u8] {
    SECOND_FILE
}

const FAMILY_FILE: &[u8] = b"claim,family,member,service,billed,code
e1,F1,M1,2024-01-05,120.00,A
e2,F1,M2,2024-02-01,100.00,A
e3,F1,M3,2024-03-01,100.00,A
e4,F2,M1,2024-03-02,30.00,B
";

/// Claims of three members of one family, and of a member of another family who has the same number
/// as a member of the first.
pub fn family_file() -> &'static [u8] {
    FAMILY_FILE
}

const FILES: &[&[u8]] = &[FIRST_FILE, SECOND_FILE];

/// The two files, in order.
pub fn both_files() -> &'static [&'static [u8]] {
    FILES
}

const HEADER: &[u8] = b"claim,member,service,billed,code\n";

/// A file without records.
pub fn header() -> &'static [u8] {
    HEADER
}

const BALANCES: &[u8] = b"member,met,oop,paid\nM1,50.00,10.00,5.00\n";

/// The opening balances of the first file's member.
pub fn balances() -> &'static [u8] {
    BALANCES
}

const REMITTANCE: &str =
    "provider,record,claim,member,status,reason,allowed,ded,copay,coins,share,paid,remarks\r
1,1,c1,M1,paid,,100.00,50.00,10.00,8.00,60.00,40.00,OVER\r
1,2,c2,M1,paid,,40.00,0.00,10.00,6.00,0.00,40.00,MET\r
1,3,c3,M1,pended,norule:1,0.00,0.00,0.00,0.00,0.00,0.00,\r
1,4,c4,M1,paid,,100.00,0.00,10.00,18.00,0.00,100.00,MET\r
2,1,d1,M2,paid,,30.00,30.00,0.00,0.00,30.00,0.00,\r
2,2,,,refused,notcents:4,,,,,,,\r
2,3,d3,M2,denied,,0.00,0.00,0.00,0.00,0.00,0.00,\r
total,6,,,,,270.00,80.00,30.00,32.00,90.00,180.00,\r
";

/// The remittance of the two files without opening balances.
pub fn remittance() -> &'static str {
    REMITTANCE
}

const LATE: &str =
    "provider,record,claim,member,status,reason,allowed,ded,copay,coins,share,paid,remarks\r
1,1,c1,M1,late,,,,,,,,\r
1,2,c2,M1,late,,,,,,,,\r
1,3,c3,M1,late,,,,,,,,\r
1,4,c4,M1,late,,,,,,,,\r
2,1,d1,M2,late,,,,,,,,\r
2,2,,,refused,notcents:4,,,,,,,\r
2,3,d3,M2,late,,,,,,,,\r
total,0,,,,,0.00,0.00,0.00,0.00,0.00,0.00,\r
";

/// The remittance of the two files if no claim is accepted.
pub fn late_remittance() -> &'static str {
    LATE
}
