//! Plans and what the commands write for them, and balances. A function returns each text, so that
//! its callers are proved without the text.

const CROSSED: &[u8] = br#"version = 1
fields = [{name = "a", kind = "number"}, {name = "b", kind = "number"}]
[[tables]]
inputs = [{name = "b"}, {name = "a"}]
outputs = [{name = "z", kind = "number"}, {name = "y", kind = "number"}]
rules = [{when = ['<1', '-'], then = ['1', '-2']}, {when = ['>=1', '>5'], then = ['3', '.5']}]
"#;

/// Two inputs in the reverse order of their fields, and two outputs.
pub fn crossed_plan() -> &'static [u8] {
    CROSSED
}

/// The values for a = 6 and b = 1.
pub fn values() -> &'static str {
    "z = 3\ny = 0.5\n"
}

const TWO_GAPS: &[u8] = br#"version = 1
fields = [{name = "x", kind = "number"}]
[[tables]]
inputs = [{name = "x"}]
outputs = [{name = "y", kind = "number"}]
rules = [{when = ['<1'], then = ['1']}, {when = ['[1.0001..5]'], then = ['2']}]
"#;

/// One number column with a gap of one number between two rules, and a gap above them.
pub fn two_gaps() -> &'static [u8] {
    TWO_GAPS
}

/// The gaps and overlaps of this plan.
pub fn gaps() -> &'static str {
    "gap table 1: 1\ngap table 1: >5\ngaps 2 overlaps 0\n"
}

const SOME_ERRORS: &[u8] = br#"version = 1
fields = [{name = "x", kind = "number"}]
[[tables]]
hit = "F"
inputs = [{name = "x"}]
outputs = [{name = "a", kind = "number"}]
rules = [{when = ['<=5'], then = ['1']}, {when = ['5'], then = ['2']}]
[[tables]]
hit = "A"
inputs = [{name = "x"}]
outputs = [{name = "b", kind = "number", default = '0'}]
rules = [{when = ['<=5'], then = ['1']}, {when = ['5'], then = ['2']}]
[[tables]]
hit = "C"
inputs = [{name = "x"}]
outputs = [{name = "c", kind = "number"}]
rules = [{when = ['<=5'], then = ['1']}, {when = ['5'], then = ['2']}]
"#;

/// Three tables, each with a gap and an overlap. The first has `F` and no default, so its gap is an
/// error. The second has `A`, a default and different entries, so its overlap is an error. The
/// third has `C`, under which neither is an error.
pub fn some_errors() -> &'static [u8] {
    SOME_ERRORS
}

/// The gaps and overlaps of this plan that are errors.
pub fn errors() -> &'static str {
    "gap table 1: >5\noverlap table 2: rules 1 2\ngaps 1 overlaps 1\n"
}

const NO_ROLES: &str = r#"version = 1
fields = [{name = "x", kind = "number"}]
[[tables]]
inputs = [{name = "x"}]
outputs = [{name = "y", kind = "number"}]
rules = [{when = ['[0..10['], then = ['1']}, {when = ['>=10'], then = ['2.5']}]
"#;

/// A plan without roles, which settles no claims.
pub fn no_roles() -> &'static str {
    NO_ROLES
}

const MEMBER_TWICE: &[u8] = b"member,met,oop,paid\nM1,50.00,10.00,5.00\nM1,50.00,10.00,5.00\n";

/// Balances that name a member twice.
pub fn member_twice() -> &'static [u8] {
    MEMBER_TWICE
}
