//! Where the boxes of the picture of a plan are, in pixels.

use crate::picture::SMALL_BOX;
use crate::sheet::Sheet;
use std::alloc::AllocError;
use tables::{Origin, Plan, Table};

/// The width of a letter.
const LETTER: usize = 8;

/// The least number of letters for which a box has room.
const LEAST_LETTERS: usize = 10;

/// The distance between boxes that are beside each other.
const BESIDE: usize = 84;

/// The distance between boxes that are below each other.
const BELOW: usize = 12;

/// The distance of the picture from its edges.
const MARGIN: usize = 4;

/// A point, counted from the left and from the top.
#[derive(Clone, Copy)]
pub struct Point {
    pub x: usize,
    pub y: usize,
}

/// The places of all boxes. Names are on the left, the tables follow by their depth in the chain, and roles are on the right.
#[derive(Clone, Copy)]
pub struct Layout<'p> {
    plan: &'p Plan,
    /// For each table the length of the longest chain of tables that ends with it.
    depths: &'p [usize],
    roles: usize,
    pub box_width: usize,
    height: usize,
}

/// Appends the depth of each table: 1, or one more than that of the deepest table that it reads.
pub fn depths_of(tables: &[Table], depths: &mut Vec<usize>) -> Result<(), AllocError> {
    for table in tables {
        let depth = depth_after(table, depths.as_slice());
        depths.push(depth)?;
    }
    Ok(())
}

fn depth_after(table: &Table, depths: &[usize]) -> usize {
    let mut deepest = 0usize;
    for input in table.inputs.as_slice() {
        if let Origin::Earlier { table, .. } = input.origin
            && let Some(depth) = depths.get(table)
        {
            deepest = deepest.max(*depth);
        }
    }
    deepest.saturating_add(1)
}

/// Returns the height of a table's box. It has a line for each output, and room for an arrow to each input.
pub fn table_height(table: &Table) -> usize {
    let lines = table.outputs.len().saturating_mul(18).saturating_add(32);
    lines.max(table.inputs.len().saturating_mul(12).saturating_add(12))
}

fn stack_height(boxes: usize) -> usize {
    boxes.saturating_mul(SMALL_BOX.saturating_add(BELOW))
}

fn longest_name(plan: &Plan, roles: &Sheet) -> usize {
    let mut most = LEAST_LETTERS;
    for data in plan.names() {
        most = most.max(data.name.as_str().len());
    }
    for table in plan.tables() {
        for output in table.outputs.as_slice() {
            most = most.max(output.name.as_str().len());
        }
    }
    for row in 1..roles.rows() {
        if roles.text(row, 2) == "literal" {
            let value = roles.text(row, 1).len().saturating_add(3);
            most = most.max(roles.text(row, 0).len().saturating_add(value));
        }
    }
    most
}

impl<'p> Layout<'p> {
    /// Places the boxes of a plan with these depths of its tables and these roles.
    pub fn new(plan: &'p Plan, depths: &'p [usize], roles: &Sheet) -> Layout<'p> {
        let letters = longest_name(plan, roles);
        let mut layout = Layout {
            plan,
            depths,
            roles: roles.rows().saturating_sub(1),
            box_width: letters.saturating_mul(LETTER).saturating_add(20),
            height: 0,
        };
        let mut height = stack_height(layout.roles).max(layout.names_height());
        for layer in 1..=layout.layers() {
            height = height.max(layout.layer_height(layer));
        }
        layout.height = height;
        layout
    }

    /// The width and the height of the picture.
    pub fn size(&self) -> Point {
        let last = self.left_of(self.layers().saturating_add(1));
        Point {
            x: last.saturating_add(self.box_width).saturating_add(MARGIN),
            y: self.height.saturating_add(MARGIN.saturating_mul(2)),
        }
    }

    fn layers(&self) -> usize {
        let mut most = 0usize;
        for depth in self.depths {
            most = most.max(*depth);
        }
        most
    }

    fn left_of(&self, layer: usize) -> usize {
        layer
            .saturating_mul(self.box_width.saturating_add(BESIDE))
            .saturating_add(MARGIN)
    }

    /// The top of boxes that have this height together and are in the middle.
    fn top_of(&self, height: usize) -> usize {
        (self.height.saturating_sub(height) / 2).saturating_add(MARGIN)
    }

    /// The height of the tables with this depth, or of those among them that come before a table.
    fn height_before(&self, layer: usize, end: usize) -> usize {
        let mut height = 0usize;
        for (place, table) in self.plan.tables().iter().enumerate() {
            if place < end && self.depth(place) == layer {
                height = height
                    .saturating_add(table_height(table))
                    .saturating_add(BELOW);
            }
        }
        height
    }

    fn layer_height(&self, layer: usize) -> usize {
        self.height_before(layer, self.depths.len())
    }

    fn depth(&self, place: usize) -> usize {
        match self.depths.get(place) {
            Some(depth) => *depth,
            None => 1,
        }
    }

    pub fn table_corner(&self, place: usize) -> Point {
        let layer = self.depth(place);
        let top = self.top_of(self.layer_height(layer));
        Point {
            x: self.left_of(layer),
            y: top.saturating_add(self.height_before(layer, place)),
        }
    }

    /// The point at which the arrow to an input of a table ends.
    pub fn input(&self, table: usize, number: usize) -> Point {
        let corner = self.table_corner(table);
        Point {
            x: corner.x,
            y: corner
                .y
                .saturating_add(number.saturating_mul(12))
                .saturating_add(12),
        }
    }

    /// The corner of the role in this row of the roles.
    pub fn role_corner(&self, row: usize) -> Point {
        let above = stack_height(row.saturating_sub(1));
        Point {
            x: self.left_of(self.layers().saturating_add(1)),
            y: self.top_of(stack_height(self.roles)).saturating_add(above),
        }
    }

    pub fn role_end(&self, row: usize) -> Point {
        let corner = self.role_corner(row);
        Point {
            x: corner.x,
            y: corner.y.saturating_add(SMALL_BOX / 2),
        }
    }

    fn names_height(&self) -> usize {
        stack_height(self.names_before(self.plan.names().len()))
    }

    /// The number of names before an index that a table or a role reads.
    fn names_before(&self, end: usize) -> usize {
        let mut count = 0usize;
        for place in 0..end {
            if self.plan.needs(place) {
                count = count.saturating_add(1);
            }
        }
        count
    }

    /// The corner of the box of a name that a table reads.
    pub fn name_corner(&self, name: &str) -> Option<Point> {
        for (place, data) in self.plan.names().iter().enumerate() {
            if data.name.as_str() == name && self.plan.needs(place) {
                let above = stack_height(self.names_before(place));
                return Some(Point {
                    x: self.left_of(0),
                    y: self.top_of(self.names_height()).saturating_add(above),
                });
            }
        }
        None
    }

    /// The point at which arrows from a name begin: at the box of the name, or at the output of a table.
    pub fn source(&self, name: &str) -> Option<Point> {
        if let Some(corner) = self.name_corner(name) {
            return Some(Point {
                x: corner.x.saturating_add(self.box_width),
                y: corner.y.saturating_add(SMALL_BOX / 2),
            });
        }
        let output = self.plan.output_place(name)?;
        let corner = self.table_corner(output.table);
        Some(Point {
            x: corner.x.saturating_add(self.box_width),
            y: corner
                .y
                .saturating_add(output.column.saturating_mul(18))
                .saturating_add(35),
        })
    }
}
