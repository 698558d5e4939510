//! What the command line of `explain` asks for.

ghost use Rattle.std.specs.Prelude.{◌≡◌, ◌≢◌, IfNone, IfSome, Some};
ghost use Rattle.explanation.specs.declared.row.Place.{Place as PlaceParts};
ghost use Rattle.commands.specs.Explanations.{IsAsked, IsFormat, IsOrderOrFiles, IsPlace, IsPlaceOf, IsSubject};
ghost use Rattle.claim_console.specs.Words.{IsNumber};

use claim_console::{cutoff_of, order_of};
use clap::ArgMatches;
use console::names::{AS_CSV, CLAIM_ID, FAMILY, FORMAT, MEMBER, RECORD};
use explanation::{Format, Order, Place};

/// What the command line asks for.
#[derive(Clone, Copy)]
pub struct Asked<'w> {
    pub cutoff: Option<u64>,
    pub order: Order,
    pub subject: Subject<'w>,
    pub format: Format,
}

/// What is explained.
#[derive(Clone, Copy)]
pub enum Subject<'w> {
    /// The record at a place.
    Record(Place),
    /// The first claim with this identifier.
    Claim(&'w str),
    /// All claims of this member.
    Member(&'w str),
    /// All claims of this family.
    Family(&'w str),
}

/// What the command line asks for; none if `--claim` is not the place of a record.
pub fn asked_of<'w>(matches: &ArgMatches<'w>) -> Option<Asked<'w>>
    ensures asked { IfSome result (λ asked. IsAsked matches.now asked) }
    ensures ordered { IfSome result (λ asked. asked.order ≢ Order.Any) }
{
    let subject = subject_of(matches)?;
    Some(Asked {
        cutoff: cutoff_of(matches),
        order: order_or_files(matches),
        subject,
        format: format_of(matches),
    })
}

// `clap` accepts exactly one of the four arguments.
fn subject_of<'w>(matches: &ArgMatches<'w>) -> Option<Subject<'w>>
    ensures { IfSome result (IsSubject matches.now) }
{
    if let Some(id) = matches.get_str(CLAIM_ID) {
        return Some(Subject::Claim(id));
    }
    if let Some(name) = matches.get_str(MEMBER) {
        return Some(Subject::Member(name));
    }
    if let Some(name) = matches.get_str(FAMILY) {
        return Some(Subject::Family(name));
    }
    Some(Subject::Record(place_of(matches)?))
}

fn place_of(matches: &ArgMatches<'_>) -> Option<Place>
    ensures { IfSome result (IsPlace matches.now) }
{
    let word = matches.get_str(RECORD)?;
    place_in(word)
}

/// The place that a text gives; none if the text is not two numbers with a colon between them.
fn place_in(text: &str) -> Option<Place>
    ensures given { IfSome result (IsPlaceOf text.now) }
    ensures none { IfNone result ((place : PlaceParts) → ¬ IsPlaceOf text.now place) }
{
    let (file, record) = text.split_once(':')?;
    Some(Place {
        provider: number_in(file)?,
        number: number_in(record)?,
    })
}

fn number_in(text: &str) -> Option<usize>
    ensures { IsNumber (Some text.now) result }
{
    text.parse::<usize>().ok()
}

/// The order in which claims are accepted; that of the files if the command line has none.
fn order_or_files(matches: &ArgMatches<'_>) -> Order
    ensures order { IsOrderOrFiles matches.now result }
    ensures ordered { result ≢ Order.Any }
{
    match order_of(matches) {
        Order::Any => Order::Files,
        Order::Files => Order::Files,
        Order::Service => Order::Service,
    }
}

/// The format of the explanation. `clap` refuses other words.
fn format_of(matches: &ArgMatches<'_>) -> Format
    ensures { IsFormat matches.now result }
{
    if matches.get_str(FORMAT) == Some(AS_CSV) {
        Format::Csv
    } else {
        Format::Text
    }
}
