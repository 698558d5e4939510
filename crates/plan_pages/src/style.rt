//! The parts of an HTML page that are the same for all plans.

/// The page up to its title.
pub fn page_begin() -> &'static str {
    "<!DOCTYPE html>
<html lang=\"en\">
<head>
<meta charset=\"utf-8\">
<meta name=\"viewport\" content=\"width=device-width, initial-scale=1\">
<meta name=\"color-scheme\" content=\"light dark\">
"
}

/// The style of the page. It has no part elsewhere.
pub fn page_style() -> &'static str {
    "<style>
:root {
  --page: #fcfcfa; --text: #1c2227; --soft: #56616b; --line: #d3d9de; --strong: #1c2227;
  --in: #edf2f6; --out: #f5f0e4; --accent: #1d4f7c;
  --pend: #93370d; --pend-back: #fdf1e7; --new: #14532d; --new-back: #e8f5ec;
  --gone: #8a1c2b; --gone-back: #fbeaec;
}
@media screen and (prefers-color-scheme: dark) {
  :root {
    --page: #13171b; --text: #e4e8eb; --soft: #a2adb7; --line: #343d45; --strong: #aab5be;
    --in: #1d262e; --out: #2a261b; --accent: #8fc1ee;
    --pend: #f5b68a; --pend-back: #33231a; --new: #93d7ab; --new-back: #173022;
    --gone: #f3a3ad; --gone-back: #3a1d22;
  }
}
* { box-sizing: border-box; }
html { -webkit-text-size-adjust: 100%; text-size-adjust: 100%; }
body {
  margin: 0 auto; padding: 3rem clamp(1rem, 4vw, 3rem) 4rem; max-width: 76rem;
  background: var(--page); color: var(--text);
  font: 1rem/1.6 system-ui, -apple-system, \"Segoe UI\", \"Liberation Sans\", Arial, sans-serif;
  overflow-wrap: break-word;
}
h1, h2, h3 { line-height: 1.25; text-wrap: balance; font-weight: 650; }
h1 { font-size: 2rem; margin: 0 0 .5rem; }
h2 { font-size: 1.4rem; margin: 3.5rem 0 1rem; padding-top: 1rem; border-top: 2px solid var(--strong); }
h3 { font-size: 1.1rem; margin: 2.5rem 0 .75rem; }
p { max-width: 46rem; margin: .5rem 0; }
a { color: var(--accent); }
.lead { color: var(--soft); }
main > ul { padding-left: 1.25rem; }
main > ul li { margin: .25rem 0; }
nav ul { list-style: none; display: flex; flex-wrap: wrap; gap: .25rem 1.5rem; padding: 0; margin: 1.5rem 0 0; }
.wide { overflow-x: auto; margin: .5rem 0 1rem; padding: 0 1px 1px 0; }
.wide:focus-visible { outline: 2px solid var(--accent); outline-offset: 3px; }
table { border-collapse: collapse; min-width: min(100%, 28rem); font-variant-numeric: tabular-nums; }
caption { text-align: left; color: var(--soft); padding: 0 0 .6rem; caption-side: top; }
caption span { display: inline-block; position: sticky; left: 0; max-width: min(46rem, calc(100vw - 2.5rem)); }
th, td { text-align: left; vertical-align: top; padding: .45rem .8rem; border: 1px solid var(--line); }
th { font-weight: 600; }
thead th { background: var(--in); }
thead th.out { background: var(--out); }
thead th.what { font-size: .8rem; font-weight: 500; color: var(--soft); }
thead tr:last-child th { border-bottom: 2px solid var(--strong); }
th.first, td.first { border-left: 3px double var(--strong); }
tbody th { color: var(--soft); font-weight: 500; white-space: nowrap; }
.kind { display: block; font-weight: 400; font-size: .85rem; color: var(--soft); }
td.any { color: var(--soft); }
td.word, .list td:not(:last-child) { white-space: nowrap; }
thead .kind { max-width: 26rem; }
thead tr:last-child th { min-width: 7rem; }
.list thead th { min-width: 0; }
.hit { font-size: 1.1rem; text-align: center; vertical-align: middle; }
.tag { font-size: .75rem; font-weight: 600; border-radius: .25rem; padding: .1rem .4rem; white-space: nowrap; }
.pend { color: var(--pend); background: var(--pend-back); }
.new, ins { color: var(--new); background: var(--new-back); }
.gone, del { color: var(--gone); background: var(--gone-back); }
tr.gone td, tr.gone th { background: var(--gone-back); }
tr.new td, tr.new th { background: var(--new-back); }
tr.dead td, tr.dead th { background: var(--pend-back); }
ins { text-decoration: none; font-weight: 600; }
.notes { border-left: 4px solid var(--pend); background: var(--pend-back); padding: .75rem 1rem; margin: 1rem 0; }
.notes p, p.notes { max-width: none; }
.notes p { margin: 0; }
.notes ul { margin: .5rem 0 0; padding-left: 1.25rem; }
code { font-family: ui-monospace, SFMono-Regular, Menlo, \"Liberation Mono\", monospace; font-size: .875rem; }
figure { margin: 1rem 0; }
figcaption { color: var(--soft); margin-top: .5rem; }
svg { display: block; font: 13px ui-monospace, SFMono-Regular, Menlo, \"Liberation Mono\", monospace; }
svg text { fill: var(--text); }
svg .title { font-weight: 700; }
svg rect { fill: var(--page); stroke: var(--soft); }
svg .table rect { fill: var(--in); stroke: var(--strong); stroke-width: 1.5; }
svg .role rect { fill: var(--out); }
svg path { fill: none; stroke: var(--soft); stroke-width: 1.25; }
svg marker path { fill: var(--soft); stroke: none; }
footer { margin-top: 4rem; color: var(--soft); font-size: .9rem; }
.sign { display: none; }
@media (max-width: 40rem) {
  body { padding-top: 1.5rem; }
  h1 { font-size: 1.5rem; }
  th, td { padding: .35rem .5rem; font-size: .9rem; }
  td.word { white-space: normal; }
}
@media print {
  @page { margin: 18mm 15mm; }
  body { padding: 0; max-width: none; font-size: 10pt; background: none; }
  nav, .skip { display: none; }
  h2, h3, caption { break-after: avoid; }
  h2 { margin-top: 2rem; }
  thead { display: table-header-group; }
  tr, .notes, figure { break-inside: avoid; }
  .wide { overflow: visible; }
  svg { max-width: 100%; height: auto; }
  th, td { padding: .25rem .5rem; }
  thead tr:last-child th { min-width: 0; }
  td.word { white-space: normal; }
  * { print-color-adjust: exact; -webkit-print-color-adjust: exact; }
  .sign { display: grid; grid-template-columns: 2fr 2fr 1fr; gap: 2rem; margin-top: 4rem; break-inside: avoid; }
  .sign p { border-top: 1px solid var(--strong); padding-top: .25rem; margin: 2.5rem 0 0; }
}
</style>
</head>
<body>
"
}

/// The end of the page.
pub fn page_end() -> &'static str {
    "<div class=\"sign\" aria-hidden=\"true\"><p>Name</p><p>Signature</p><p>Date</p></div>
</body>
</html>
"
}
