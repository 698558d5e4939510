//! The options of a run.

ghost use Rattle.std.specs.Prelude.{◌≡◌, IfSome, true};
ghost use Rattle.claim_console.specs.Words.{AsksStrict, IsCutoff, IsOrder, IsStrict, IsWorkers};

use claim_gate::Order;
use clap::ArgMatches;
use console::names::{BY_FILES, BY_SERVICE, CUTOFF, ORDER, STRICT, WORKERS};

/// Whether unknown keys of the plan are errors.
pub fn is_strict(matches: &ArgMatches<'_>) -> bool
    ensures strict { result ≡ true → IsStrict matches.now }
    ensures asked { AsksStrict matches.now → result ≡ true }
{
    matches.get_flag(STRICT)
}

/// The greatest number of claims to accept; none if there is no limit.
pub fn cutoff_of(matches: &ArgMatches<'_>) -> Option<u64>
    ensures { IsCutoff matches.now result }
{
    matches.get_one::<u64>(CUTOFF)
}

/// The order in which claims are accepted; `Any` if none is given. `clap` refuses other words.
pub fn order_of(matches: &ArgMatches<'_>) -> Order
    ensures { IsOrder matches.now result }
{
    let Some(word) = matches.get_str(ORDER) else {
        return Order::Any;
    };
    match word {
        BY_FILES => Order::Files,
        BY_SERVICE => Order::Service,
        _ => Order::Any,
    }
}

/// The number of worker threads. `clap` fills in the default.
pub fn workers_of(matches: &ArgMatches<'_>) -> Option<usize>
    ensures { IfSome result (λ workers. IsWorkers matches.now workers) }
{
    matches.get_one::<usize>(WORKERS)
}
