//! Laws of the order of acceptance, to be cited by other proofs. The calls have no effect.
ghost use Rattle.orders.specs.Existence.{OrderHasAJournal, OrderTakesAllClaims};
ghost use Rattle.orders.specs.Laws.{AcceptAlike, DecidedByOrder, ReportIsOfItsOrder, TotalsByOrder};
ghost use Rattle.orders.specs.Remittance.{OneOrderedRemittance, TextsHaveOneOrderedRemittance};
ghost use Rattle.orders.specs.RunTexts.{TextsHaveOneRemittance};

use dtable::text_spells_at_most_one_plan;
use feel_tests::field_spells_at_most_one_value;
use intake_csv::text_has_one_list_of_rows;
use journal::{finished_takes_all, order_leaves_no_choice};

/// In a finished journal the terms and the order of acceptance determine the outcome of each claim.
pub fn decided_by_order()
    ensures { DecidedByOrder }
{}

/// In a finished journal the terms and the order of acceptance determine the totals. The order in
/// which the claims were decided does not matter.
pub fn totals_by_order()
    ensures { TotalsByOrder }
{}

/// In a finished journal the terms and the order of acceptance determine each record of the
/// remittance: two journals that are finished under the same terms, and accept the same claims in
/// the same order, have the same remittance.
pub fn report_is_of_its_order()
    ensures { ReportIsOfItsOrder }
{}

/// Two journals that are finished under the same terms, and accept claims in the same order, by
/// files or by day of service, accept the same claims.
pub fn ordered_journals_accept_alike()
    ensures { AcceptAlike }
{
    // proof: the number of claims that a finished journal accepts; an order leaves no choice
    finished_takes_all();
    order_leaves_no_choice();
}

/// For given terms there is at most one remittance in an order. It depends neither on the run nor
/// on the number of threads.
pub fn ordered_remittance_is_one()
    ensures { OneOrderedRemittance }
{
    // proof: the number of claims that a finished journal accepts; an order leaves no choice; a
    // text has at most one list of rows
    finished_takes_all();
    order_leaves_no_choice();
    text_has_one_list_of_rows();
}

/// For given texts of claims and balances, and a given plan, cutoff and order, there is at most one
/// remittance in this order.
pub fn texts_have_one_ordered_remittance()
    ensures { TextsHaveOneOrderedRemittance }
{
    // proof: the number of claims that a finished journal accepts; an order leaves no choice; a
    // text has at most one list of rows, and a field denotes at most one value
    finished_takes_all();
    order_leaves_no_choice();
    text_has_one_list_of_rows();
    field_spells_at_most_one_value();
}

/// For given texts of the plan, the claims and the balances, and a given cutoff and order, there is
/// at most one remittance in this order. It depends neither on the run nor on the number of threads.
pub fn texts_have_one_remittance()
    ensures { TextsHaveOneRemittance }
{
    // proof: a text denotes at most one plan, and under a plan there is at most one remittance
    text_spells_at_most_one_plan();
    texts_have_one_ordered_remittance();
}

/// An order of acceptance leaves out no claim: it has as many first claims as are asked for, up to
/// all claims of the files.
pub fn order_takes_all_claims()
    ensures { OrderTakesAllClaims }
{}

/// For all terms and each order there is a finished journal that accepts claims in this order. So
/// there is always a remittance in an order.
pub fn order_has_a_journal()
    ensures { OrderHasAJournal }
{}
