//! How a sheet differs from that of an older plan, row by row.

use crate::sheet::Sheet;

/// A sheet beside the one of an older plan. The rows of a decision table are compared by their conditions, those of a list by their first texts.
#[derive(Clone, Copy)]
pub struct Marks<'s> {
    pub old: &'s Sheet,
    pub new: &'s Sheet,
}

impl<'s> Marks<'s> {
    /// Returns the text of the old sheet for a column of the new one. A condition that the old sheet does not have is a dash.
    pub fn old_text(&self, row: usize, column: usize) -> &'s str {
        let name = self.new.text(0, column);
        if column == 0 || self.old.text(0, column) == name {
            return self.old.text(row, column);
        }
        for place in 1..self.old.columns() {
            if self.old.text(0, place) == name {
                return self.old.text(row, place);
            }
        }
        if row < self.old.heads { "" } else { "-" }
    }

    fn is_same_rule(&self, row: usize, old_row: usize) -> bool {
        let first = usize::from(self.new.outputs > 0);
        for column in first..self.new.outputs.max(1) {
            if self.new.text(row, column) != self.old_text(old_row, column) {
                return false;
            }
        }
        true
    }

    fn same_old_row(&self, row: usize) -> Option<usize> {
        for old_row in self.old.heads..self.old.rows() {
            if self.is_same_rule(row, old_row) {
                return Some(old_row);
            }
        }
        None
    }

    /// Whether a row of the old sheet has the conditions of a row of the new one.
    fn is_kept(&self, old_row: usize) -> bool {
        for row in self.new.heads..self.new.rows() {
            if self.is_same_rule(row, old_row) {
                return true;
            }
        }
        false
    }

    /// Whether the rules with this number have other conditions than all rules of the other sheet. One is then a change of the other.
    fn is_changed(&self, row: usize) -> bool {
        self.new.outputs > 0
            && row < self.new.rows()
            && row < self.old.rows()
            && self.same_old_row(row).is_none()
            && !self.is_kept(row)
    }

    /// Returns the row of the old sheet that a row of the new one has come from, unless it is added.
    pub fn old_row(&self, row: usize) -> Option<usize> {
        match self.same_old_row(row) {
            Some(old_row) => Some(old_row),
            None if self.is_changed(row) => Some(row),
            None => None,
        }
    }

    /// Returns whether no row of the new sheet has come from a row of the old one.
    pub fn is_gone(&self, old_row: usize) -> bool {
        !self.is_kept(old_row) && !self.is_changed(old_row)
    }
}
