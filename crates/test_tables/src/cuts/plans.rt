//! Plans for the tests. Each plan is returned by a function, because the whole text of a constant
//! would become part of the proof of every test that names it.

/// Two ranges of numbers, with 1 between them.
pub fn disjoint_plan() -> &'static [u8] {
    br#"version = 1
fields = [{name = "x", kind = "number"}]
[[tables]]
hit = "R"
inputs = [{name = "x"}]
outputs = [{name = "y", kind = "number"}]
rules = [
  {when = ['<1'], then = ['1']},
  {when = ['[1.0001..5]'], then = ['1']},
]
"#
}

/// Two texts.
pub fn codes() -> &'static [u8] {
    br#"version = 1
fields = [{name = "x", kind = "text"}]
[[tables]]
hit = "R"
inputs = [{name = "x"}]
outputs = [{name = "y", kind = "number"}]
rules = [
  {when = ['"A"'], then = ['1']},
  {when = ['"B"'], then = ['1']},
]
"#
}

/// Two texts, which are the only allowed values.
pub fn allowed_codes() -> &'static [u8] {
    br#"version = 1
fields = [{name = "x", kind = "text"}]
[[tables]]
hit = "R"
inputs = [{name = "x", values = '"A","B"'}]
outputs = [{name = "y", kind = "number"}]
rules = [
  {when = ['"A"'], then = ['1']},
  {when = ['"B"'], then = ['1']},
]
"#
}

/// One rule over four columns of 16 regions. No number lies between 1 and 1.0001.
pub fn sixteen_regions() -> &'static [u8] {
    br#"version = 1
fields = [{name = "x", kind = "number"}]
[[tables]]
hit = "R"
inputs = [{name = "x"}, {name = "x"}, {name = "x"}, {name = "x"}]
outputs = [{name = "y", kind = "number"}]
rules = [
  {when = ['1,1.0001,3,4,5,6,7,8', '1,1.0001,3,4,5,6,7,8', '1,1.0001,3,4,5,6,7,8', '1,1.0001,3,4,5,6,7,8'], then = ['1']},
]
"#
}

/// One rule over four columns of 17 regions.
pub fn seventeen_regions() -> &'static [u8] {
    br#"version = 1
fields = [{name = "x", kind = "number"}]
[[tables]]
hit = "R"
inputs = [{name = "x"}, {name = "x"}, {name = "x"}, {name = "x"}]
outputs = [{name = "y", kind = "number"}]
rules = [
  {when = ['1,2,3,4,5,6,7,8', '1,2,3,4,5,6,7,8', '1,2,3,4,5,6,7,8', '1,2,3,4,5,6,7,8'], then = ['1']},
]
"#
}

/// Two equal rules over ten columns of 17 regions and one column without allowed values.
pub fn no_region_after_ten_columns() -> &'static [u8] {
    br#"version = 1
fields = [{name = "x", kind = "number"}]
[[tables]]
hit = "R"
inputs = [
  {name = "x"}, {name = "x"}, {name = "x"}, {name = "x"}, {name = "x"},
  {name = "x"}, {name = "x"}, {name = "x"}, {name = "x"}, {name = "x"},
  {name = "x", values = '[5..1]'},
]
outputs = [{name = "y", kind = "number"}]
rules = [
  {when = [
    '1,2,3,4,5,6,7,8', '1,2,3,4,5,6,7,8', '1,2,3,4,5,6,7,8', '1,2,3,4,5,6,7,8', '1,2,3,4,5,6,7,8',
    '1,2,3,4,5,6,7,8', '1,2,3,4,5,6,7,8', '1,2,3,4,5,6,7,8', '1,2,3,4,5,6,7,8', '1,2,3,4,5,6,7,8',
    '-',
  ], then = ['1']},
  {when = [
    '1,2,3,4,5,6,7,8', '1,2,3,4,5,6,7,8', '1,2,3,4,5,6,7,8', '1,2,3,4,5,6,7,8', '1,2,3,4,5,6,7,8',
    '1,2,3,4,5,6,7,8', '1,2,3,4,5,6,7,8', '1,2,3,4,5,6,7,8', '1,2,3,4,5,6,7,8', '1,2,3,4,5,6,7,8',
    '-',
  ], then = ['1']},
]
"#
}

/// A flag and a text, with two gaps and one overlap.
pub fn flag_and_code() -> &'static [u8] {
    br#"version = 1
fields = [{name = "flag", kind = "flag"}, {name = "code", kind = "text"}]
[[tables]]
hit = "R"
inputs = [{name = "flag"}, {name = "code"}]
outputs = [{name = "y", kind = "number"}]
rules = [
  {when = ['true', '"A"'], then = ['1']},
  {when = ['-', '"B"'], then = ['1']},
  {when = ['false', 'not("A")'], then = ['1']},
]
"#
}

/// Two ranges of days, a rule for the first day of all, and a default for the other days, such as
/// the last one.
pub fn days() -> &'static [u8] {
    br#"version = 1
fields = [{name = "x", kind = "day"}]
[[tables]]
hit = "U"
inputs = [{name = "x"}]
outputs = [{name = "y", kind = "number", default = '7'}]
rules = [
  {when = ['<date("2024-02-29")'], then = ['1']},
  {when = [']date("2024-02-29")..date("9999-12-31")['], then = ['2']},
  {when = ['date("0001-01-01")'], then = ['3']},
]
"#
}

/// Two tables. The second one reads the first, counts its matches and has a limit.
pub fn chain() -> &'static [u8] {
    br#"version = 1
fields = [{name = "x", kind = "number"}]
[[tables]]
hit = "C+"
inputs = [{name = "x"}]
outputs = [{name = "sum", kind = "number", default = '0'}]
rules = [
  {when = ['>=1'], then = ['1']},
  {when = ['>=2'], then = ['10']},
  {when = ['>=3'], then = ['100']},
]
[[tables]]
hit = "F"
inputs = [{name = "sum", values = '<=11'}, {name = "x"}]
outputs = [{name = "y", kind = "number"}]
rules = [
  {when = ['1', '-'], then = ['1']},
  {when = ['not(0)', '<2.5'], then = ['2']},
]
"#
}

/// Two adjacent ranges of numbers.
pub fn stretches() -> &'static [u8] {
    br#"version = 1
fields = [{name = "x", kind = "number"}]
[[tables]]
inputs = [{name = "x"}]
outputs = [{name = "y", kind = "number"}]
rules = [{when = ['[0..10['], then = ['1']}, {when = ['>=10'], then = ['2.5']}]
"#
}
