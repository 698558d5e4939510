//! A plan for the tests. It is returned by a function, because the whole text of a constant would
//! become part of the proof of every test that names it.

/// A chain of tables with five hit policies: a sum, the risk of the highest priority, and lists
/// that read both.
pub fn chain_plan() -> &'static [u8] {
    br#"version = 1
[[tables]]
hit = "C+"
inputs = [{name = "billed"}]
outputs = [{name = "score", kind = "number"}]
rules = [{when = ['>=10'], then = ['1.5']}, {when = ['>=100'], then = ['2']}, {when = ['-'], then = ['-0.25']}]

[[tables]]
hit = "P"
inputs = [{name = "score"}]
outputs = [{name = "risk", kind = "text", priority = ['"HIGH"', '"LOW"']}]
rules = [{when = ['>=0'], then = ['"LOW"']}, {when = ['>3'], then = ['"HIGH"']}]

[[tables]]
hit = "O"
inputs = [{name = "risk"}]
outputs = [{name = "step", kind = "text", priority = ['"CALL"', '"MAIL"']}]
rules = [{when = ['-'], then = ['"MAIL"']}, {when = ['"HIGH"'], then = ['"CALL"']}, {when = ['not("HIGH")'], then = ['"CALL"']}]

[[tables]]
hit = "R"
inputs = [{name = "score"}, {name = "risk"}]
outputs = [{name = "note", kind = "text"}, {name = "points", kind = "number"}]
rules = [{when = ['>3', '-'], then = ['"OVER"', '3']}, {when = ['-', '"HIGH"'], then = ['"LOOK"', '1']}]

[[tables]]
hit = "C#"
inputs = [{name = "risk"}]
outputs = [{name = "rules", kind = "text"}]
rules = [{when = ['"HIGH"'], then = ['"a"']}, {when = ['-'], then = ['"a"']}, {when = ['"LOW"'], then = ['"a"']}]
"#
}
