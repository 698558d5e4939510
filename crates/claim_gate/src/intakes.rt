//! How many claims of each provider's file are accepted.
ghost use Rattle.std.specs.Prelude.{◌≡◌, ◌+◌, ◌<◌, ◌^◌, false, IfOk, count_by, replicate};
ghost use Rattle.std.specs.List.{list_all};
ghost use Rattle.claim_gate.specs.Intakes.{intake_of, none_yet, with_accept, with_end};

use std::alloc::{AllocError, Global};
use std::marker::Model;

/// The progress of a provider's file.
#[derive(Clone, Copy, PartialEq, Eq, Drop)]
pub struct Intake {
    /// The number of its accepted claims.
    pub accepted: usize,
    /// Whether the provider has ended.
    pub ended: bool,
}

/// The progress of each provider's file. Contracts see it as the list by provider. Providers count from 1.
#[derive(Drop)]
pub struct Intakes {
    each: Vec<Intake>,
    ended: usize,
}

impl Model for Intakes {
    ghost use Rattle.std.specs.Prelude.{◌≡◌, List, count_by};
    ghost use Rattle.claim_gate.specs.declared.intakes.Intake.{Intake};

    ghost Value = { List Intake };

    ghost view = { λ i. i.each.items };

    ghost invariant = { λ i. i.ended ≡ count_by (λ x. x.ended) i.each.items };
}

impl Intakes {
    /// Creates the progress of the given number of providers, none of whose claims is accepted.
    pub fn new(alloc: Global, providers: usize) -> Result<Intakes, AllocError>
        ensures { IfOk result (λ made. made ≡ replicate providers none_yet) }
    {
        let none = Intake {
            accepted: 0,
            ended: false,
        };
        Ok(Intakes {
            each: vec![in alloc; none; providers]?,
            ended: 0,
        })
    }

    /// Returns the number of accepted claims of a provider, which is 0 where there is no such provider.
    pub fn accepted_count(&self, provider: usize) -> usize
        ensures { result ≡ (intake_of self.now provider).accepted }
    {
        self.of(provider).accepted
    }

    /// Returns whether a provider has ended. It is true where there is no such provider.
    pub fn is_ended(&self, provider: usize) -> bool
        ensures { result ≡ (intake_of self.now provider).ended }
    {
        self.of(provider).ended
    }

    fn of(&self, provider: usize) -> Intake
        ensures { result ≡ intake_of self.now provider }
    {
        match provider.checked_sub(1) {
            Some(place) if place < self.each.len() => self.each[place],
            _ => Intake {
                accepted: 0,
                ended: true,
            },
        }
    }

    /// Counts one more accepted claim of a provider.
    pub fn accept(&mut self, provider: usize)
        requires { (intake_of self.old provider).accepted + 1 < 2 ^ 64 }
        ensures { self.new ≡ with_accept self.old provider }
    {
        if let Some(place) = provider.checked_sub(1)
            && place < self.each.len()
        {
            self.each[place].accepted += 1;
        }
    }

    /// Ends a provider that has not ended yet.
    pub fn end(&mut self, provider: usize)
        requires { (intake_of self.old provider).ended ≡ false }
        ensures { self.new ≡ with_end self.old provider }
    {
        let place = provider - 1;
        self.each[place].ended = true;
        self.ended += 1;
    }

    /// Returns the number of providers that have ended.
    pub fn ended_count(&self) -> usize
        ensures { result ≡ count_by (λ x. x.ended) self.now }
    {
        self.ended
    }

    /// Returns whether all providers have ended.
    pub fn all_ended(&self) -> bool
        ensures { result ≡ list_all (λ x. x.ended) self.now }
    {
        self.ended == self.each.len()
    }
}
