//! Plans: names, decision tables in order of evaluation, and roles.
ghost use Rattle.std.specs.Prelude.{◌≡◌, ◌≤◌, ◌++◌, ◌∷◌, ◌↔◌, [], List, length, IsTrue, IfOk, OnOk};
ghost use Rattle.std.specs.List.{list_all};
ghost use Rattle.std.specs.Option.{option_copied, option_and_then};
ghost use Rattle.feel_tests.specs.declared.kind.Kind.TheVariants as kinds;
ghost use Rattle.tables.specs.declared.environment.Answer.{Answer};
ghost use Rattle.tables.specs.Environment.{answer_of, answer_at};
ghost use Rattle.tables.specs.Limits.{name_limit_bytes};
ghost use Rattle.tables.specs.Inputs.{needs, is_served, IsReady};
ghost use Rattle.tables.specs.Names.{named_input, claim_names, accumulator_names, names_of};
ghost use Rattle.tables.specs.Plan.{IsPlan, has_families, has_years, keeps_families, keeps_years};

use crate::inputs::Inputs;
use crate::name::Name;
use crate::output_place::{OutputPlace, place_named};
use crate::roles::Roles;
use crate::table::{InputData, Table};
use faults::names::{
    BILLED, CLAIM, FAMILY, FAMILY_MET, FAMILY_OOP, MEMBER, MET, OOP, PAID, SERVICE,
};
use feel_tests::{Kind, Sequence};
use std::alloc::{AllocError, Global};
use std::marker::Model;

/// A plan. Contracts see its version, its names, its tables and its roles, and every plan satisfies
/// `IsPlan`.
pub struct Plan {
    version: u8,
    names: Sequence<InputData>,
    tables: Sequence<Table>,
    roles: Option<Roles>,
}

impl Drop for Plan {
    fn drop(self) {
        let Plan {
            version: _,
            names: _,
            tables: _,
            roles: _,
        } = self;
    }
}

impl Model for Plan {
    ghost use Rattle.tables.specs.Plan.{PlanParts, IsPlan};

    ghost Value = { PlanParts };

    ghost view = { λ p.
        record { version = p.version; names = p.names; tables = p.tables; roles = p.roles } };

    ghost invariant = { λ p. IsPlan
        (record { version = p.version; names = p.names; tables = p.tables; roles = p.roles }) };
}

impl Plan {
    /// Combines the parts of a plan, which must satisfy `IsPlan`.
    pub fn new(
        version: u8,
        names: Sequence<InputData>,
        tables: Sequence<Table>,
        roles: Option<Roles>,
    ) -> Plan
        requires { IsPlan
            (record { version = version; names = names; tables = tables; roles = roles }) }
        ensures { result
            ≡ record { version = version; names = names; tables = tables; roles = roles } }
    {
        Plan {
            version,
            names,
            tables,
            roles,
        }
    }

    /// Returns the version of the plan's format. Version 2 keeps accumulators by benefit year, and
    /// version 3 keeps them by benefit year and also for families.
    pub fn version(&self) -> u8
        ensures version { result ≡ self.now.version }
        ensures sound { IsPlan self.now }
    {
        self.version
    }

    /// Returns whether accumulators are kept by benefit year, which is the calendar year of the
    /// service.
    pub fn keeps_years(&self) -> bool
        ensures { result ≡ keeps_years self.now }
    {
        has_years(self.version)
    }

    /// Returns whether accumulators are also kept for families.
    pub fn keeps_families(&self) -> bool
        ensures { result ≡ keeps_families self.now }
    {
        has_families(self.version)
    }

    /// Returns the names that tables may read from outside: claim, member, service, billed, the
    /// fields in order, and the accumulators met, oop and paid. If accumulators are kept for
    /// families, family precedes member, and fmet and foop follow paid.
    pub fn names(&self) -> &[InputData]
        ensures names { result.now ≡ self.now.names }
        ensures sound { IsPlan self.now }
    {
        self.names.as_slice()
    }

    /// Returns the tables, in order of evaluation.
    pub fn tables(&self) -> &[Table]
        ensures tables { result.now ≡ self.now.tables }
        ensures sound { IsPlan self.now }
    {
        self.tables.as_slice()
    }

    /// Returns the roles, if the plan has any. Only a plan with roles settles claims.
    pub fn roles(&self) -> Option<&Roles>
        ensures roles { option_copied result ≡ self.now.roles }
        ensures sound { IsPlan self.now }
    {
        self.roles.as_ref()
    }

    /// Returns the place of the output with this name. The answer at that place is the answer by
    /// the name in every evaluation.
    pub fn output_place(&self, name: &str) -> Option<OutputPlace>
        ensures { (answers : List (List Answer))
            → answer_of self.now.tables answers name.now
            ≡ option_and_then (answer_at answers) result }
    {
        place_named(self.tables.as_slice(), name)
    }

    /// Returns whether some table reads the name at this index, from 0.
    pub fn needs(&self, place: usize) -> bool
        ensures { result ≡ needs self.now.tables place }
    {
        for table in self.tables() {
            if table.reads(place) {
                return true;
            }
        }
        false
    }

    /// Returns whether every name that a table reads has a value.
    pub fn ready(&self, inputs: &Inputs) -> bool
        ensures { IsTrue result ↔ IsReady self.now.tables inputs.now }
    {
        are_served(self.tables.as_slice(), inputs)
    }
}

/// Returns whether plans of this version keep accumulators by benefit year.
pub fn has_years(version: u8) -> bool
    ensures { result ≡ has_years version }
{
    version != 1
}

/// Returns whether plans of this version also keep accumulators for families.
pub fn has_families(version: u8) -> bool
    ensures { result ≡ has_families version }
{
    version == 3
}

/// Returns all names of a plan with these fields, in the order of `Plan::names`.
pub fn all_names(
    alloc: Global,
    families: bool,
    fields: Sequence<InputData>,
) -> Result<Sequence<InputData>, AllocError>
    ensures { IfOk result (λ names. names ≡ names_of families fields) }
{
    let mut names = fields;
    for_member(alloc, families, &mut names)?;
    for_claim(alloc, families, &mut names)?;
    Ok(names)
}

fn for_member(
    alloc: Global,
    families: bool,
    names: &mut Sequence<InputData>,
) -> Result<(), AllocError>
    ensures { OnOk result (names.new ≡ names.old ++ accumulator_names families) }
{
    push_number(alloc, MET, names)?;
    push_number(alloc, OOP, names)?;
    push_number(alloc, PAID, names)?;
    if families {
        push_number(alloc, FAMILY_MET, names)?;
        push_number(alloc, FAMILY_OOP, names)?;
    }
    Ok(())
}

fn for_claim(
    alloc: Global,
    families: bool,
    names: &mut Sequence<InputData>,
) -> Result<(), AllocError>
    ensures { OnOk result (names.new ≡ claim_names families ++ names.old) }
{
    put_first(alloc, BILLED, Kind::Number, names)?;
    put_first(alloc, SERVICE, Kind::Day, names)?;
    put_first(alloc, MEMBER, Kind::Text, names)?;
    if families {
        put_first(alloc, FAMILY, Kind::Text, names)?;
    }
    put_first(alloc, CLAIM, Kind::Text, names)
}

fn push_number(alloc: Global, name: &str, names: &mut Sequence<InputData>) -> Result<(), AllocError>
    requires { length name.now ≤ name_limit_bytes }
    ensures { OnOk result (names.new ≡ names.old ++ named_input name.now kinds.Number ∷ []) }
{
    names.push(named_input(alloc, name, Kind::Number)?)
}

fn put_first(
    alloc: Global,
    name: &str,
    kind: Kind,
    names: &mut Sequence<InputData>,
) -> Result<(), AllocError>
    requires { length name.now ≤ name_limit_bytes }
    ensures { OnOk result (names.new ≡ named_input name.now kind ∷ names.old) }
{
    names.insert(0, named_input(alloc, name, kind)?)
}

fn named_input(alloc: Global, name: &str, kind: Kind) -> Result<InputData, AllocError>
    requires { length name.now ≤ name_limit_bytes }
    ensures { IfOk result (λ made. made ≡ named_input name.now kind) }
{
    Ok(InputData {
        name: Name::new(alloc, name)?,
        kind,
    })
}

fn are_served(tables: &[Table], inputs: &Inputs) -> bool
    ensures { result ≡ list_all (is_served inputs.now) tables.now }
{
    for table in tables {
        if !table.is_served(inputs) {
            return false;
        }
    }
    true
}
