//! Laws of claim files, to be cited by other proofs. Each function has an empty body, apart from
//! calls of other laws.
ghost use Rattle.intake_csv.specs.Laws.{ClaimsHaveFields, FilesHaveRows, GivenRowHasTheClaim, GivenRowIsTheFirst, NoRecordsNoRows, StartHasTheRows, TextHasOneListOfRows};

/// A claim in a record of a claim file fits the plan.
pub fn claims_have_the_plan_s_fields()
    ensures { ClaimsHaveFields }
{}

/// A reader at the start of a text has all rows of the text before it.
pub fn reader_begins_with_all_rows()
    ensures { StartHasTheRows }
{}

/// The row that a reader returns is the first of its remaining rows.
pub fn given_row_is_the_first()
    ensures { GivenRowIsTheFirst }
{
    // proof: two readings of one field have the same result
    fixpoint::text_denotes_at_most_one();
    feel_tests::field_spells_at_most_one_value();
}

/// A text has exactly one list of rows under the names of a plan.
pub fn text_has_one_list_of_rows()
    ensures { TextHasOneListOfRows }
{
    // proof: two readings of one field have the same result
    fixpoint::text_denotes_at_most_one();
    feel_tests::field_spells_at_most_one_value();
}

/// The row that a reader returns has the same claim as the first of its remaining rows, even if two
/// required columns have one place.
pub fn given_row_has_the_claim()
    ensures { GivenRowHasTheClaim }
{
    // proof: two readings of one field have the same result
    fixpoint::text_denotes_at_most_one();
    feel_tests::field_spells_at_most_one_value();
}

/// No claim file lacks a list of rows.
pub fn files_have_rows()
    ensures { FilesHaveRows }
{}

/// A reader without remaining records has no remaining rows.
pub fn no_records_give_no_rows()
    ensures { NoRecordsNoRows }
{}
