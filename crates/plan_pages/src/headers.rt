//! Empty files for a plan: their first lines.

use crate::names::claim_names;
use crate::page::Page;
use faults::names::{FAMILY, MEMBER, MET, OOP, PAID, YEAR};
use std::alloc::{AllocError, Global};
use tables::Plan;

/// Returns a claim file without claims: its header has each column that a claim file of the plan needs. Fails only if memory runs out.
pub fn claim_header(alloc: Global, plan: &Plan) -> Result<Vec<u8>, AllocError> {
    let mut page = Page::new(alloc);
    let mut mark = "";
    for data in claim_names(plan) {
        page.put(mark);
        page.put(data.name.as_str());
        mark = ",";
    }
    page.put("\n");
    page.finish()
}

/// Returns a file of balances without records: its header has each column that a file of balances for the plan needs. Fails only if memory runs out.
pub fn balance_header(alloc: Global, plan: &Plan) -> Result<Vec<u8>, AllocError> {
    let mut page = Page::new(alloc);
    if plan.keeps_families() {
        page.put(FAMILY);
        page.put(",");
    }
    page.put(MEMBER);
    if plan.keeps_years() {
        page.put(",");
        page.put(YEAR);
    }
    for name in [MET, OOP, PAID] {
        page.put(",");
        page.put(name);
    }
    page.put("\n");
    page.finish()
}
