//! A plan as a page to read: in boxes on a terminal or as HTML, with its names, and with empty files for it.
//!
//! `page.rt` is the text that all of these write to, and `sheet.rt` has rows of texts, which are drawn by `grid.rt` for a terminal and by `html_table.rt`
//! for a page in HTML. There `findings.rt` marks what the check of the whole plan finds, and `marks.rt` compares rows with those of an older plan.
//! `tables_sheet.rt`, `names.rt` and `size.rt` make such rows of a plan, and `terminal.rt` and `html.rt` put the pages together.
//! `picture.rt` draws the chain of the tables, with the places that `layout.rt` computes. `headers.rt` has the empty files.
#![tactic(auto)]

mod findings;
mod grid;
mod headers;
mod html;
mod html_table;
mod layout;
mod lines;
mod marks;
mod names;
mod page;
mod picture;
mod sheet;
mod size;
mod style;
mod tables_sheet;
mod terminal;
mod words;

pub use findings::{RuleNumber, TestNumber};
pub use headers::{balance_header, claim_header};
pub use html::{Shown, plan_html};
pub use terminal::{names_text, plan_text};
