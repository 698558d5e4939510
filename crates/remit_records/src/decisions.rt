//! An index of a journal's decisions by provider and claim, for lookups in constant time.
ghost use Rattle.std.specs.Prelude.{◌≡◌, ◌≤◌, ◌<◌, ◌+◌, [], List, ℕ, get_or, length, take, OnOk, IfOk};
ghost use Rattle.journal.specs.declared.event.Event.{Event as AnyEvent};
ghost use Rattle.remit_records.specs.Looked.{LaidOut, Noted, NotesPlace, NotesPosition, Replaces, ReplacesEach, claim_count, found_of, outcome_at, outcome_in};

use claim_gate::Terms;
use journal::Event;
use settlement::Outcome;
use std::alloc::{AllocError, Global};

/// An index of a journal: the event that decides each claim of each provider.
///
/// The index takes only one word for each claim, because the buffered sections of the remittance
/// need memory at the same time.
pub struct Decisions<'j> {
    version: u8,
    accepted: usize,
    journal: &'j [Event],
    // For each provider, the indices of the events that decide its claims, in the order of the
    // claims. A claim that is not decided has the journal's length.
    places: Vec<Vec<usize>>,
}

impl Drop for Decisions<'_> {
    fn drop(self) {
        let Decisions {
            version: _,
            accepted: _,
            journal: _,
            places: _,
        } = self;
    }
}

impl<'j> Decisions<'j> {
    /// Builds the index for the claims of the given number of providers, in two passes over the
    /// journal.
    #[tactic(auto, using(crate::proofs::Noting::laid_under))]
    pub fn new(
        alloc: Global,
        terms: &Terms,
        providers: usize,
        journal: &'j [Event],
    ) -> Result<Decisions<'j>, AllocError>
        ensures { IfOk result (LaidOut terms.now.plan.version providers journal.now) }
    {
        Decisions::of_journal(alloc, terms.plan().version(), providers, journal)
    }

    fn of_journal(
        alloc: Global,
        version: u8,
        providers: usize,
        journal: &'j [Event],
    ) -> Result<Decisions<'j>, AllocError>
        ensures { IfOk result (LaidOut version providers journal.now) }
    {
        let mut notes = Notes::of_none(alloc, providers)?;
        notes.note_accepts(journal)?;
        notes.note_decisions(journal);
        Ok(notes.into_decisions(version, journal))
    }

    /// Returns the outcome of a provider's claim, or `None` if the journal does not decide it.
    /// Providers are numbered from 1 and places from 0.
    pub fn outcome(&self, provider: usize, place: usize) -> Option<&'j Outcome>
        requires { 1 ≤ provider }
        ensures { outcome_in result ≡ found_of self.now provider place }
    {
        let places = self.places.get(provider - 1)?;
        outcome_at(self.journal, *places.get(place)?)
    }

    /// Returns the number of a provider's accepted claims.
    pub fn claim_count(&self, provider: usize) -> usize
        requires { 1 ≤ provider }
        ensures { result ≡ claim_count self.now provider }
    {
        match self.places.get(provider - 1) {
            Some(places) => places.len(),
            None => 0,
        }
    }

    /// Returns the plan's version.
    pub fn version(&self) -> u8
        ensures { result ≡ self.now.version }
    {
        self.version
    }

    /// Returns the number of accepted claims.
    pub fn accepted_count(&self) -> usize
        ensures { result ≡ self.now.accepted }
    {
        self.accepted
    }
}

// The state of the two passes over a journal: the positions of each provider's claims, in order,
// and for each position the index of the event that decides it, or the journal's length.
#[derive(Drop)]
struct Notes {
    positions: Vec<Vec<usize>>,
    decided: Vec<usize>,
}

impl Notes {
    fn of_none(alloc: Global, providers: usize) -> Result<Notes, AllocError>
        ensures { IfOk result (λ notes. (J : List AnyEvent) → Noted J providers [] [] notes) }
    {
        let mut positions = Vec::with_capacity(alloc, providers)?;
        for _ in 0..providers {
            positions.push(Vec::new(alloc))?;
        }
        Ok(Notes {
            positions,
            decided: Vec::new(alloc),
        })
    }

    fn note_accepts(&mut self, journal: &[Event]) -> Result<(), AllocError>
        ensures { OnOk result ((providers : ℕ) → Noted journal.now providers [] [] self.old
            → Noted journal.now providers journal.now [] self.new) }
    {
        for place in 0..journal.len() {
            self.note_accept(journal, place)?;
        }
        Ok(())
    }

    fn note_accept(&mut self, journal: &[Event], place: usize) -> Result<(), AllocError>
        requires { place < length journal.now }
        ensures { OnOk result ((providers : ℕ)
            → Noted journal.now providers (take place journal.now) [] self.old
            → Noted journal.now providers (take (place + 1) journal.now) [] self.new) }
    {
        let Event::Accept { provider, .. } = &journal[place] else {
            return Ok(());
        };
        let position = self.decided.len();
        self.decided.push(journal.len())?;
        note_position(&mut self.positions, *provider, position)
    }

    fn note_decisions(&mut self, journal: &[Event])
        ensures { (providers : ℕ) (accepting : List AnyEvent)
            → Noted journal.now providers accepting [] self.old
            → Noted journal.now providers accepting journal.now self.new }
    {
        for place in 0..journal.len() {
            self.note_decision(journal, place);
        }
    }

    fn note_decision(&mut self, journal: &[Event], place: usize)
        requires { place < length journal.now }
        ensures { (providers : ℕ) (accepting : List AnyEvent)
            → Noted journal.now providers accepting (take place journal.now) self.old
            → Noted journal.now providers accepting (take (place + 1) journal.now) self.new }
    {
        let Event::Decide { position, .. } = &journal[place] else {
            return;
        };
        note_place(journal, &mut self.decided, *position, place);
    }

    // The lists of positions become the lists of event indices, so this step takes no memory and
    // cannot fail.
    fn into_decisions(self, version: u8, journal: &[Event]) -> Decisions<'_>
        ensures { (providers : ℕ) → Noted journal.now providers journal.now journal.now self
            → LaidOut version providers journal.now result }
    {
        let Notes { positions, decided } = self;
        let mut places = positions;
        replace_each(&mut places, decided.as_slice(), journal.len());
        Decisions {
            version,
            accepted: decided.len(),
            journal,
            places,
        }
    }
}

// Appends a position to those of its provider. An unknown provider is ignored.
fn note_position(
    positions: &mut Vec<Vec<usize>>,
    provider: usize,
    position: usize,
) -> Result<(), AllocError>
    ensures { OnOk result
        (NotesPosition positions.old.items positions.new.items provider position) }
{
    if 1 <= provider && provider <= positions.len() {
        positions[provider - 1].push(position)?;
    }
    Ok(())
}

// Only the first decision of a known position counts.
fn note_place(journal: &[Event], decided: &mut Vec<usize>, position: usize, place: usize)
    ensures { NotesPlace journal.now decided.old.items decided.new.items position
        (outcome_at journal.now place) }
{
    if position < decided.len() && outcome_at(journal, decided[position]).is_none() {
        decided[position] = place;
    }
}

// Returns the outcome in the event at this index, if there is such an event and it decides a claim.
fn outcome_at(journal: &[Event], place: usize) -> Option<&Outcome>
    ensures { outcome_in result ≡ outcome_at journal.now place }
{
    match journal.get(place)? {
        Event::Decide { outcome, .. } => Some(outcome.outcome()),
        _ => None,
    }
}

fn replace_each(positions: &mut Vec<Vec<usize>>, decided: &[usize], end: usize)
    ensures { ReplacesEach decided.now end positions.old.items positions.new.items }
{
    for provider in 0..positions.len() {
        replace(&mut positions[provider], decided, end);
    }
}

// Replaces each position by the index of its decision, or by `end` if the position is unknown.
fn replace(positions: &mut Vec<usize>, decided: &[usize], end: usize)
    ensures { Replaces decided.now end positions.old.items positions.new.items }
{
    for claim in 0..positions.len() {
        positions[claim] = place_of(decided, positions[claim], end);
    }
}

fn place_of(decided: &[usize], position: usize, end: usize) -> usize
    ensures { result ≡ get_or decided.now position end }
{
    match decided.get(position) {
        Some(place) => *place,
        None => end,
    }
}
