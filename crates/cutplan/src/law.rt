//! Theorems that relate regions, gaps, overlaps and masks to the values that match. Each function
//! does nothing; its contract states the theorem.
ghost use Rattle.cutplan.specs.Laws.{AllowedAreInside, CellsHoldAlike, CutsAreLiterals, CutsRise, FitsAreMatches, GapIffNoRuleMatches, GapsMatchNothing, OverlapIffTwoRulesMatch, OverlapsMatchTogether, RegionsHoldValues, RegionsPartValues};
ghost use Rattle.cutplan.specs.Masks.{MasksListMatches};
ghost use Rattle.cutplan.specs.Places.{PlacesAreGaps};
ghost use Rattle.cutplan.specs.ClassWise.{ClassesAreValued};
ghost use Rattle.cutplan.specs.InputClasses.{ClassesAnswerAlike};

/// Within a region of its column, the cell of a rule holds for all values or for none.
pub fn cells_hold_alike()
    ensures { CellsHoldAlike }
{}

/// Each allowed value of a column lies in exactly one of its regions.
pub fn regions_part_values()
    ensures { RegionsPartValues }
{}

/// No rule matches an allowed tuple of values if and only if the cell of the tuple is among the
/// gaps.
pub fn gap_iff_no_rule_matches()
    ensures { GapIffNoRuleMatches }
{}

/// The cells at the indices that `check_table` lists are the gaps that `CutPlan::gaps` lists, in
/// order. For example, if the gaps of a table with ten cells are its first cell and its last one,
/// `check_table` lists 0 and 9.
pub fn places_are_gaps()
    ensures { PlacesAreGaps }
{}

/// Each region of a column contains an allowed value.
pub fn regions_hold_values()
    ensures { RegionsHoldValues }
{}

/// Two rules both match some allowed tuple of values if and only if their pair is among the
/// overlaps.
pub fn overlap_iff_two_rules_match()
    ensures { OverlapIffTwoRulesMatch }
{}

/// A rule fits the values that a table reads if and only if it is among the matching rules. For
/// example, if a table reads 7 and the cell of its first rule is `>5`, the rule fits 7, and
/// `matching` begins with its index, 0.
pub fn fits_are_matches()
    ensures { FitsAreMatches }
{}

/// The values that a table reads, each of its column's kind and in the range of that kind, are
/// allowed if and only if none of them is outside. For example, if a table reads 7 and its only
/// input has the allowed values `[0..5]`, then 7 is not allowed, and `first_outside` is the index
/// of the input, 0. At 3 there is no such index.
pub fn allowed_are_inside()
    ensures { AllowedAreInside }
{}

/// The values that a table reads, each of its column's kind and in the range of that kind, lie in a
/// cell among the gaps if and only if none of them is outside and no rule matches. For example, let
/// `]5..7[` be the only gap of a table. If the table reads 6, nothing is outside, and `matching` is
/// empty. If it reads 7, then 7 is outside or some rule matches.
pub fn gaps_match_nothing()
    ensures { GapsMatchNothing }
{}

/// Two rules that match together at values of the columns' kinds and in their ranges are among the
/// overlaps. Conversely, for each pair among the overlaps there is an allowed tuple of values that
/// both rules match whenever a table reads it. For example, let the rules 1 and 3 be the only
/// overlap of a table. Then there is an allowed tuple at which `matching` has both, and at no such
/// values does it have the rules 1 and 2, unless something is outside.
pub fn overlaps_match_together()
    ensures { OverlapsMatchTogether }
{}

/// The cuts of a column of numbers, days or texts are in increasing order and distinct; texts are
/// in byte order. For example, the cells `>5` and `[2..5]` cut their column at 2 and then at 5, and
/// the cell `"B","A"` cuts its column at `"A"` and then at `"B"`.
pub fn cuts_rise()
    ensures { CutsRise }
{}

/// The cuts of a column are the literals of its kind in the cells of its rules and in its allowed
/// values. For example, the cell `<=7` cuts its column at 7, and there is a cut at 6 only if a cell
/// or the allowed values name it.
pub fn cuts_are_literals()
    ensures { CutsAreLiterals }
{}

/// A mask that has exactly the matching rules lists them in rule order. For example, if the first
/// and the last of three rules match, word 0 of the mask is 5, and the mask lists 0 and 2, as
/// `matching` does.
pub fn masks_list_matches()
    ensures { MasksListMatches }
{}

/// All inputs in one input class have the same value. For example, if the tables read one name and
/// its cells are `<18`, `[18..65]` and `>65`, then 20 and 64 are in one class, and the tables have
/// the same answers for both. 18 and 20 are in different classes, whatever the tables answer for
/// them.
pub fn classes_answer_alike()
    ensures { ClassesAnswerAlike }
{}

/// Tables have the value of an input class for all inputs that lie in it. The literals that cut its
/// regions are those of the plan and possibly others, such as those of another plan.
pub fn classes_are_valued()
    ensures { ClassesAreValued }
{}
