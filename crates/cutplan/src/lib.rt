//! The check of decision tables (DMN 1.4), and their evaluation by rule masks. The check finds
//! gaps, which are inputs that no rule covers, and overlaps, which are pairs of rules that can
//! match together.
//!
//! `compile` makes a `CutPlan`, which borrows its plan and gives the same values as the plan. The
//! literals of a column cut its values into the regions of `regions`. Within a region, each cell of
//! the column holds for all values or for none, so `gaps` tests only one value of each region.
//! `overlaps` lists the pairs of rules that share an allowed input. `check_table` finds both for one
//! table without a compiled plan. It lists each gap by its index among all cells, which needs little
//! memory.
//!
//! The mask of a region is the set of rules whose cell holds in it. The matching rules of a table
//! are the intersection of the masks of the regions that contain the values that it reads.
//!
//! The literals of all columns that read a name also cut the values of the name. An input class is
//! a tuple of such regions, one for each name, and all inputs in one class have the same value.
//!
//! A gap of a table that has no value where no rule matches is an error of the plan, and so is an
//! overlap of rules that the hit policy does not let match together: `specs/Violations.antt` defines
//! both, and `violations.rt` decides them.
//!
//! Tables and hit policies come from `tables`, cells and values from `feel_tests`, and the list of
//! matching rules from `smallvec`.
//!
//! Begin with `specs/Regions.antt` of `regions`, which defines the regions of a column, and
//! `specs/Check.antt`, which defines gaps and overlaps. `specs/Masks.antt` defines masks,
//! `specs/Matching.antt` the search by masks, and `specs/InputClasses.antt` input classes. Then read
//! `partition.rt`, which makes the regions of a column and of a name, `cut_plan.rt`, whose functions
//! carry the promises, and `law.rt`.
#![tactic(auto)]

mod cell_probe;
mod compiled_answers;
mod compiled_column;
mod cut_plan;
mod cuts;
mod fault;
mod gap;
mod input_class;
mod keys;
mod law;
mod lookup;
mod mask;
mod matching;
mod overlap;
mod partition;
mod rule_pairs;
mod sorted_cuts;
mod table_check;
mod violation_law;
mod violations;

pub use cut_plan::{CutPlan, compile};
pub use cuts::{add_cell, add_tables};
pub use fault::CheckFault;
pub use gap::{CELL_LIMIT, cell_count};
pub use law::{
    allowed_are_inside, cells_hold_alike, classes_answer_alike, classes_are_valued,
    cuts_are_literals, cuts_rise, fits_are_matches, gap_iff_no_rule_matches, gaps_match_nothing,
    masks_list_matches, overlap_iff_two_rules_match, overlaps_match_together, places_are_gaps,
    regions_hold_values, regions_part_values,
};
pub use mask::RuleMask;
pub use partition::Partition;
pub use regions::{Region, has_value, holds_in, least_like, next, regions_between};
pub use sorted_cuts::sort_cuts;
pub use table_check::{TableCheck, check_table};
pub use violation_law::errors_are_faults;
pub use violations::{gap_is_error, overlap_is_error};
