//! The reader of a plan's roles.
ghost use Rattle.std.specs.Prelude.{◌≡◌, ◌↔◌, ◌≢◌, ◌≤◌, codes, map, length, not, ◌&&◌, Some, option_map, IsTrue, IfOk, OnOk, OnErr};
ghost use Rattle.std.specs.Bool.{OnTrue};
ghost use Rattle.std.specs.List.{list_any};
ghost use Rattle.std.specs.Str.{bytes_eq};
ghost use Rattle.toml.specs.Data.{get};
ghost use Rattle.toml.specs.View.{view};
ghost use Rattle.faults.specs.declared.role_key.RoleKey.TheVariants as role_keys;
ghost use Rattle.faults.specs.RoleKeys.{key_of};
ghost use Rattle.feel_tests.specs.declared.kind.Kind.TheVariants as kinds;
ghost use Rattle.dtable.specs.Document.{string_at, Optionally};
ghost use Rattle.tables.specs.Limits.{name_limit_bytes};
ghost use Rattle.tables.specs.Plan.{same_kind};
ghost use Rattle.dtable.specs.Reading.{Reads};
ghost use Rattle.dtable.specs.RoleFile.{AreBenefits, AreFamilyRoles, AreLimits, AreRoles, AreRemarks, AreShares, IsRole, IsSource, IsNamedSource, IsLiteralSource, Meets, asked_by, asked_kind, lists_texts};
ghost use Rattle.dtable.specs.Scope.{seen_of};

use super::place::FaultLocation;
use super::scope::{kind_at, origin_of};
use faults::{PlanCause, PlanFault, RoleKey};
use feel_tests::{CellCause, Kind, Value as Literal, read_value, text_spells_at_most_one_value};
use std::alloc::{AllocError, Global};
use tables::{FamilyRoles, InputData, Name, Origin, Output, Roles, Source, Table};
use toml::Value;

/// The requirement on a role's value.
#[derive(Clone, Copy)]
pub enum RoleKind {
    /// The value must be a flag.
    Flag,
    /// The value must be an amount of money, which is not negative.
    Money,
    /// The value must be a number from 0 to 1.
    Rate,
    /// The role has no value of its own: it names an output that lists texts.
    Texts,
}

/// The roles that say what a service gets.
#[derive(Drop)]
pub struct Benefits {
    pub cover: Source,
    pub fee: Source,
    pub deductible: Source,
}

/// The roles that say what a member pays.
#[derive(Drop)]
pub struct Shares {
    pub copay: Source,
    pub rate: Source,
    pub oop_max: Source,
}

/// Reads the roles of a document, if it has any. The family's limits are among them if the plan
/// keeps accumulators for families.
pub fn read_roles(
    alloc: Global,
    document: &Value,
    families: bool,
    names: &[InputData],
    tables: &[Table],
) -> Result<Option<Roles>, PlanFault>
    ensures { Reads (Optionally (AreRoles families names.now (map seen_of tables.now))
        (get (codes "roles") (view document.now))) result }
{
    match document.get("roles") {
        None => Ok(None),
        Some(roles) => {
            let roles = read_role_table(alloc, roles, families, names, tables)?;
            Ok(Some(roles))
        }
    }
}

fn read_role_table(
    alloc: Global,
    roles: &Value,
    families: bool,
    names: &[InputData],
    tables: &[Table],
) -> Result<Roles, PlanFault>
    ensures { Reads (AreRoles families names.now (map seen_of tables.now) (view roles.now)) result }
{
    if !roles.is_table() {
        return Err(FaultLocation::TEXT.fault(PlanCause::Kind));
    }
    let table = RoleTable {
        roles,
        names,
        tables,
    };
    let benefits = read_benefits(alloc, &table)?;
    let shares = read_shares(alloc, &table)?;
    let remarks = read_remarks(alloc, &table)?;
    let family = read_family_roles(alloc, &table, families)?;
    Ok(Roles {
        cover: benefits.cover,
        fee: benefits.fee,
        deductible: benefits.deductible,
        copay: shares.copay,
        rate: shares.rate,
        oop_max: shares.oop_max,
        remarks,
        family,
    })
}

fn read_benefits(alloc: Global, table: &RoleTable) -> Result<Benefits, PlanFault>
    ensures { Reads (AreBenefits table.now.names.now (map seen_of table.now.tables.now)
        (view table.now.roles.now)) result }
{
    let cover = table.read(alloc, RoleKey::Cover)?;
    let fee = table.read(alloc, RoleKey::Fee)?;
    let deductible = table.read(alloc, RoleKey::Deductible)?;
    Ok(Benefits {
        cover,
        fee,
        deductible,
    })
}

fn read_shares(alloc: Global, table: &RoleTable) -> Result<Shares, PlanFault>
    ensures { Reads (AreShares table.now.names.now (map seen_of table.now.tables.now)
        (view table.now.roles.now)) result }
{
    let copay = table.read(alloc, RoleKey::Copay)?;
    let rate = table.read(alloc, RoleKey::Rate)?;
    let oop_max = table.read(alloc, RoleKey::OopMax)?;
    Ok(Shares {
        copay,
        rate,
        oop_max,
    })
}

/// If the plan does not keep accumulators for families, the keys of the family's limits are not
/// keys of the plan, and are ignored.
fn read_family_roles(
    alloc: Global,
    table: &RoleTable,
    families: bool,
) -> Result<Option<FamilyRoles>, PlanFault>
    ensures { Reads (AreFamilyRoles families table.now.names.now (map seen_of table.now.tables.now)
        (view table.now.roles.now)) result }
{
    if !families {
        return Ok(None);
    }
    let limits = read_limits(alloc, table)?;
    Ok(Some(limits))
}

fn read_limits(alloc: Global, table: &RoleTable) -> Result<FamilyRoles, PlanFault>
    ensures { Reads (AreLimits table.now.names.now (map seen_of table.now.tables.now)
        (view table.now.roles.now)) result }
{
    let deductible = table.read(alloc, RoleKey::FamilyDeductible)?;
    let oop_max = table.read(alloc, RoleKey::FamilyOopMax)?;
    Ok(FamilyRoles {
        deductible,
        oop_max,
    })
}

/// The table `roles`, with the names and the tables whose values its strings may name.
#[derive(Drop)]
struct RoleTable<'a> {
    roles: &'a Value,
    names: &'a [InputData],
    tables: &'a [Table],
}

impl RoleTable<'_> {
    fn read(&self, alloc: Global, role: RoleKey) -> Result<Source, PlanFault>
        ensures { Reads (IsRole self.now.names.now (map seen_of self.now.tables.now) role
            (view self.now.roles.now)) result }
    {
        let place = FaultLocation::of_role(role);
        match text_at(self.roles, role) {
            Some(text) => {
                let asked = RoleKind::of(role);
                read_source(alloc, text, asked, self.names, self.tables, place)
            }
            None => Err(place.fault(PlanCause::Role)),
        }
    }
}

fn text_at(roles: &Value, role: RoleKey) -> Option<&str>
    ensures { option_map (λ text. text.now) result ≡ string_at (key_of role) (view roles.now) }
{
    match roles.get(role.key()) {
        None => None,
        Some(value) => value.as_str(),
    }
}

/// Reads a role's string: as a literal if it is one, and as a name otherwise.
fn read_source(
    alloc: Global,
    text: &str,
    asked: RoleKind,
    names: &[InputData],
    tables: &[Table],
    place: FaultLocation,
) -> Result<Source, PlanFault>
    ensures { Reads (IsSource names.now (map seen_of tables.now) asked text.now) result }
{
    // proof: a text denotes at most one value, so a refused text denotes none
    text_spells_at_most_one_value();
    match read_value(alloc, asked.kind(), text) {
        Ok(value) => literal_source(value, asked, place),
        Err(fault) => match fault.cause {
            CellCause::OutOfMemory => Err(PlanFault::from(AllocError)),
            _ => read_named(alloc, text, asked.kind(), names, tables, place),
        },
    }
}

/// Returns the literal as a source if it meets the requirement.
fn literal_source(
    value: Literal,
    asked: RoleKind,
    place: FaultLocation,
) -> Result<Source, PlanFault>
    ensures ok { IfOk result (λ source. source ≡ Source.Literal value) }
    ensures meets { OnOk result (Meets asked value) }
    ensures refused { OnErr result (¬ Meets asked value) }
{
    if asked.meets(&value) {
        Ok(Source::Literal(value))
    } else {
        Err(place.fault(PlanCause::Money))
    }
}

/// Reads a role's string as the name of a single value of the kind.
fn read_named(
    alloc: Global,
    text: &str,
    kind: Kind,
    names: &[InputData],
    tables: &[Table],
    place: FaultLocation,
) -> Result<Source, PlanFault>
    ensures { Reads (IsNamedSource names.now (map seen_of tables.now) kind text.now) result }
{
    let Some(origin) = origin_of(names, tables, text) else {
        return Err(place.fault(PlanCause::Role));
    };
    if !is_of_kind(kind_at(names, tables, origin), kind) {
        return Err(place.fault(PlanCause::Role));
    }
    match origin {
        Origin::Given(input) => Ok(Source::Input(input)),
        Origin::Earlier { table, column } => {
            let output = &tables[table].outputs.as_slice()[column];
            Ok(Source::Output(Name::new(alloc, output.name.as_str())?))
        }
    }
}

fn is_of_kind(found: Option<Kind>, kind: Kind) -> bool
    ensures { IsTrue result ↔ (found ≡ Some kind) }
{
    found == Some(kind)
}

/// Reads the name of the output that lists remarks, if the key is there.
fn read_remarks(alloc: Global, table: &RoleTable) -> Result<Option<Name>, PlanFault>
    ensures { Reads (Optionally (AreRemarks (map seen_of table.now.tables.now))
        (get (key_of role_keys.Remarks) (view table.now.roles.now))) result }
{
    match table.roles.get(RoleKey::Remarks.key()) {
        None => Ok(None),
        Some(entry) => {
            let name = read_remarks_name(alloc, entry, table.tables)?;
            Ok(Some(name))
        }
    }
}

fn read_remarks_name(alloc: Global, entry: &Value, tables: &[Table]) -> Result<Name, PlanFault>
    ensures { Reads (AreRemarks (map seen_of tables.now) (view entry.now)) result }
{
    let place = FaultLocation::of_role(RoleKey::Remarks);
    let Some(text) = entry.as_str() else {
        return Err(place.fault(PlanCause::Role));
    };
    if !lists_texts(tables, text) {
        return Err(place.fault(PlanCause::Role));
    }
    Ok(Name::new(alloc, text)?)
}

/// Returns whether an output with this name lists texts.
fn lists_texts(tables: &[Table], name: &str) -> bool
    ensures listed { result ≡ lists_texts (map seen_of tables.now) name.now }
    ensures short { OnTrue result (length name.now ≤ name_limit_bytes) }
{
    for table in tables {
        if table_lists_texts(table, name) {
            return true;
        }
    }
    false
}

fn table_lists_texts(table: &Table, name: &str) -> bool
    ensures listed { result ≡ list_any (λ o. bytes_eq o.name name.now
        && (not o.is_single && same_kind kinds.Text o.kind)) (seen_of table.now) }
    ensures short { OnTrue result (length name.now ≤ name_limit_bytes) }
{
    !table.hit.gives_one() && some_text(table.outputs.as_slice(), name)
}

fn some_text(outputs: &[Output], name: &str) -> bool
    ensures listed { result ≡ list_any (λ o. bytes_eq o.name name.now
        && same_kind kinds.Text o.kind) outputs.now }
    ensures short { OnTrue result (length name.now ≤ name_limit_bytes) }
{
    for output in outputs {
        if is_text_named(output, name) {
            return true;
        }
    }
    false
}

fn is_text_named(output: &Output, name: &str) -> bool
    ensures named { result
        ≡ (bytes_eq output.now.name name.now && same_kind kinds.Text output.now.kind) }
    ensures short { OnTrue result (length name.now ≤ name_limit_bytes) }
{
    output.name.as_str() == name && is_text(output.kind)
}

fn is_text(kind: Kind) -> bool
    ensures { result ≡ same_kind kinds.Text kind }
{
    matches!(kind, Kind::Text)
}

impl RoleKind {
    fn of(role: RoleKey) -> RoleKind
        ensures { result ≡ asked_by role }
    {
        match role {
            RoleKey::Cover => RoleKind::Flag,
            RoleKey::Fee => RoleKind::Money,
            RoleKey::Deductible => RoleKind::Money,
            RoleKey::Copay => RoleKind::Money,
            RoleKey::Rate => RoleKind::Rate,
            RoleKey::OopMax => RoleKind::Money,
            RoleKey::Remarks => RoleKind::Texts,
            RoleKey::FamilyDeductible => RoleKind::Money,
            RoleKey::FamilyOopMax => RoleKind::Money,
        }
    }

    fn kind(self) -> Kind
        ensures { result ≡ asked_kind self }
    {
        match self {
            RoleKind::Flag => Kind::Flag,
            RoleKind::Money => Kind::Number,
            RoleKind::Rate => Kind::Number,
            RoleKind::Texts => Kind::Text,
        }
    }

    fn meets(self, value: &Literal) -> bool
        ensures { IsTrue result ↔ Meets self value.now }
    {
        match (self, value) {
            (RoleKind::Flag, _) => true,
            (RoleKind::Money, Literal::Number(number)) => number.is_money(),
            (RoleKind::Rate, Literal::Number(number)) => number.is_rate(),
            _ => false,
        }
    }
}
