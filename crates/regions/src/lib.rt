//! The regions into which the literals of a column cut its values. In a region, each cell of the
//! column holds for all values or for none.
//!
//! `region.rt` has the region itself, the values in it, and whether a cell holds in it.
//! `regions_from_cuts.rt` makes the regions of a column from its sorted literals. Begin with
//! `specs/Regions.antt`, which defines the regions of a column and the values of each.
#![tactic(auto)]

mod region;
mod regions_from_cuts;

pub use region::{Region, holds_in, is_among, is_in, is_less, is_open, is_value, least_like, next};
pub use regions_from_cuts::{allowed_regions, has_value, regions_between};
