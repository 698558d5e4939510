//! The chain of a plan's tables as a picture in SVG: boxes for names, tables and roles, from left to right, and an arrow for each name that is read.

use crate::layout::{Layout, Point, depths_of, table_height};
use crate::names::roles_sheet;
use crate::page::{Page, Part};
use crate::sheet::Sheet;
use crate::terminal::put_outputs;
use tables::{Plan, Table};

/// The height of the box of a name or a role, in pixels.
pub const SMALL_BOX: usize = 26;

/// Writes the section with the picture.
pub fn put_picture(page: &mut Page, plan: &Plan) {
    let mut depths = Vec::new(page.alloc());
    if depths_of(plan.tables(), &mut depths).is_err() {
        return page.cut();
    }
    let roles = roles_sheet(page.alloc(), plan);
    let layout = Layout::new(plan, depths.as_slice(), &roles);
    page.put(
        "<h2 id=\"chain\">Chain of the tables</h2>\n<figure>\n<div class=\"wide\" role=\"region\" aria-label=\"Picture of the chain\" tabindex=\"0\">\n",
    );
    let size = layout.size();
    let width = Part::Number(size.x);
    let height = Part::Number(size.y);
    page.fill(
        "<svg width=\"{}\" height=\"{}\" viewBox=\"0 0 {} {}\" role=\"img\" aria-labelledby=\"chain-title chain-text\">\n<title id=\"chain-title\">Which table reads what</title>\n<desc id=\"chain-text\">",
        &[width, height, width, height],
    );
    put_description(page, plan);
    page.put(
        "</desc>\n<defs><marker id=\"arrow\" viewBox=\"0 0 8 8\" refX=\"8\" refY=\"4\" markerWidth=\"7\" markerHeight=\"7\" orient=\"auto\"><path d=\"M0 0 8 4 0 8z\"/></marker></defs>\n",
    );
    put_arrows(page, plan, &roles, &layout);
    put_boxes(page, plan, &roles, &layout);
    page.put(
        "</svg>\n</div>\n<figcaption>From left to right: the names that a claim brings, the tables in the order in which they depend on each other, and the roles that settle the claim.</figcaption>\n</figure>\n",
    );
}

/// Writes in sentences what the picture shows.
fn put_description(page: &mut Page, plan: &Plan) {
    for (place, table) in plan.tables().iter().enumerate() {
        page.fill("Table {} reads ", &[Part::Number(place.saturating_add(1))]);
        put_inputs(page, table);
        page.put(" and gives ");
        put_outputs(page, table);
        page.put(". ");
    }
}

fn put_inputs(page: &mut Page, table: &Table) {
    let mut mark = "";
    for input in table.inputs.as_slice() {
        page.put(mark);
        page.put(input.name.as_str());
        mark = ", ";
    }
}

fn put_arrows(page: &mut Page, plan: &Plan, roles: &Sheet, layout: &Layout<'_>) {
    for (place, table) in plan.tables().iter().enumerate() {
        for (number, input) in table.inputs.iter().enumerate() {
            let to = layout.input(place, number);
            put_arrow(page, layout.source(input.name.as_str()), to);
        }
    }
    for row in 1..roles.rows() {
        put_arrow(
            page,
            layout.source(roles.text(row, 1)),
            layout.role_end(row),
        );
    }
}

/// Writes an arrow between two points; a literal has none.
fn put_arrow(page: &mut Page, from: Option<Point>, to: Point) {
    let Some(from) = from else {
        return;
    };
    let middle = Part::Number(from.x.saturating_add(to.x) / 2);
    page.fill(
        "<path d=\"M{} {}C{} {} {} {} {} {}\" marker-end=\"url(#arrow)\"/>\n",
        &[
            Part::Number(from.x),
            Part::Number(from.y),
            middle,
            Part::Number(from.y),
            middle,
            Part::Number(to.y),
            Part::Number(to.x),
            Part::Number(to.y),
        ],
    );
}

fn put_boxes(page: &mut Page, plan: &Plan, roles: &Sheet, layout: &Layout<'_>) {
    for data in plan.names() {
        if let Some(corner) = layout.name_corner(data.name.as_str()) {
            put_small_box(page, layout, "name", corner, data.name.as_str(), "");
        }
    }
    for (place, table) in plan.tables().iter().enumerate() {
        put_table_box(page, layout, place, table);
    }
    for row in 1..roles.rows() {
        let value = if layout.source(roles.text(row, 1)).is_some() {
            ""
        } else {
            roles.text(row, 1)
        };
        put_small_box(
            page,
            layout,
            "role",
            layout.role_corner(row),
            roles.text(row, 0),
            value,
        );
    }
}

/// Writes a box with one line: a name, or a role with its value if that is a literal.
fn put_small_box(
    page: &mut Page,
    layout: &Layout<'_>,
    class: &str,
    corner: Point,
    name: &str,
    value: &str,
) {
    put_rectangle(page, class, corner, layout.box_width, SMALL_BOX);
    put_text(page, "", corner, 17, name);
    if !value.is_empty() {
        page.fill(" = {}", &[Part::Words(value)]);
    }
    page.put("</text></g>\n");
}

fn put_table_box(page: &mut Page, layout: &Layout<'_>, place: usize, table: &Table) {
    let corner = layout.table_corner(place);
    put_rectangle(page, "table", corner, layout.box_width, table_height(table));
    put_text(page, "title", corner, 19, "Table ");
    page.fill("{}</text>\n", &[Part::Number(place.saturating_add(1))]);
    for (number, output) in table.outputs.iter().enumerate() {
        let below = number.saturating_mul(18).saturating_add(39);
        put_text(page, "", corner, below, output.name.as_str());
        page.put("</text>\n");
    }
    page.put("</g>\n");
}

/// Begins a group with a rectangle.
fn put_rectangle(page: &mut Page, class: &str, corner: Point, width: usize, height: usize) {
    page.fill(
        "<g class=\"{}\"><rect x=\"{}\" y=\"{}\" width=\"{}\" height=\"{}\" rx=\"4\"/>\n",
        &[
            Part::Words(class),
            Part::Number(corner.x),
            Part::Number(corner.y),
            Part::Number(width),
            Part::Number(height),
        ],
    );
}

/// Begins a text in a box, the given number of pixels below its corner.
fn put_text<'w>(page: &mut Page, class: &'w str, corner: Point, below: usize, words: &'w str) {
    page.fill(
        "<text class=\"{}\" x=\"{}\" y=\"{}\">{}",
        &[
            Part::Words(class),
            Part::Number(corner.x.saturating_add(10)),
            Part::Number(corner.y.saturating_add(below)),
            Part::Words(words),
        ],
    );
}
