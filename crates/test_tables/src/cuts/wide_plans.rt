//! Plans with one column that its literals cut into more than 64 regions.

/// Eighty texts, and all others: 81 regions.
pub fn wide_codes() -> &'static [u8] {
    br#"version = 1
fields = [{name = "x", kind = "text"}]
[[tables]]
hit = "R"
inputs = [{name = "x"}]
outputs = [{name = "y", kind = "number"}]
rules = [
  {when = ['"C00","C01","C02","C03","C04","C05","C06","C07","C08","C09","C10","C11","C12","C13","C14","C15","C16","C17","C18","C19","C20","C21","C22","C23","C24","C25","C26","C27","C28","C29","C30","C31","C32","C33","C34","C35","C36","C37","C38","C39"'], then = ['1']},
  {when = ['"C40","C41","C42","C43","C44","C45","C46","C47","C48","C49","C50","C51","C52","C53","C54","C55","C56","C57","C58","C59","C60","C61","C62","C63","C64","C65","C66","C67","C68","C69","C70","C71","C72","C73","C74","C75","C76","C77","C78","C79"'], then = ['1']},
]
"#
}

/// Forty numbers, and the numbers between them: 81 regions.
pub fn wide_numbers() -> &'static [u8] {
    br#"version = 1
fields = [{name = "x", kind = "number"}]
[[tables]]
hit = "R"
inputs = [{name = "x"}]
outputs = [{name = "y", kind = "number"}]
rules = [
  {when = ['1,2,3,4,5,6,7,8,9,10,11,12,13,14,15,16,17,18,19,20'], then = ['1']},
  {when = ['21,22,23,24,25,26,27,28,29,30,31,32,33,34,35,36,37,38,39,40'], then = ['1']},
]
"#
}

/// Forty days, and the days between them: 81 regions.
pub fn wide_days() -> &'static [u8] {
    br#"version = 1
fields = [{name = "x", kind = "day"}]
[[tables]]
hit = "R"
inputs = [{name = "x"}]
outputs = [{name = "y", kind = "number"}]
rules = [
  {when = ['date("2024-01-01"),date("2024-01-03"),date("2024-01-05"),date("2024-01-07"),date("2024-01-09"),date("2024-01-11"),date("2024-01-13"),date("2024-01-15"),date("2024-01-17"),date("2024-01-19"),date("2024-01-21"),date("2024-01-23"),date("2024-01-25"),date("2024-01-27"),date("2024-01-29"),date("2024-01-31"),date("2024-02-02"),date("2024-02-04"),date("2024-02-06"),date("2024-02-08")'], then = ['1']},
  {when = ['date("2024-02-10"),date("2024-02-12"),date("2024-02-14"),date("2024-02-16"),date("2024-02-18"),date("2024-02-20"),date("2024-02-22"),date("2024-02-24"),date("2024-02-26"),date("2024-02-28"),date("2024-03-01"),date("2024-03-03"),date("2024-03-05"),date("2024-03-07"),date("2024-03-09"),date("2024-03-11"),date("2024-03-13"),date("2024-03-15"),date("2024-03-17"),date("2024-03-19")'], then = ['1']},
]
"#
}
