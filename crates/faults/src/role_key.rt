//! The roles of a plan: the key of each in the plan's table `roles`, and its number in messages.
ghost use Rattle.std.specs.Prelude.{◌≡◌, ◌≢◌, IfSome, IfNone};
ghost use Rattle.faults.specs.RoleKeys.{key_of, number_of};

/// The keys of the roles of every plan, in the order of their numbers.
pub const ROLE_KEYS: [&str; 7] = [COVER, FEE, DEDUCTIBLE, COPAY, RATE, OOP_MAX, REMARKS];

/// The keys of the further roles of a plan that keeps accumulators for families, in the order of their numbers.
pub const FAMILY_ROLE_KEYS: [&str; 2] = [FAMILY_DEDUCTIBLE, FAMILY_OOP_MAX];

const COVER: &str = "cover";

const FEE: &str = "fee";

const DEDUCTIBLE: &str = "deductible";

const COPAY: &str = "copay";

const RATE: &str = "rate";

const OOP_MAX: &str = "oop_max";

const REMARKS: &str = "remarks";

const FAMILY_DEDUCTIBLE: &str = "family_deductible";

const FAMILY_OOP_MAX: &str = "family_oop_max";

/// A role of a plan.
#[derive(Clone, Copy, Debug, PartialEq, Eq, Drop)]
pub enum RoleKey {
    /// Whether the service is covered.
    Cover,
    /// The allowed amount of the service, as money.
    Fee,
    /// The deductible of the member, as money.
    Deductible,
    /// The copay of the member for each claim, as money.
    Copay,
    /// The member's coinsurance, a rate from 0 to 1.
    Rate,
    /// The out-of-pocket maximum of the member, as money.
    OopMax,
    /// The output that lists the remarks of a claim.
    Remarks,
    /// The deductible of the family, as money.
    FamilyDeductible,
    /// The out-of-pocket maximum of the family, as money.
    FamilyOopMax,
}

impl RoleKey {
    /// Returns the key of the role in the plan's table `roles`.
    pub fn key(self) -> &'static str
        ensures { result.now ≡ key_of self }
    {
        match self {
            RoleKey::Cover => COVER,
            RoleKey::Fee => FEE,
            RoleKey::Deductible => DEDUCTIBLE,
            RoleKey::Copay => COPAY,
            RoleKey::Rate => RATE,
            RoleKey::OopMax => OOP_MAX,
            RoleKey::Remarks => REMARKS,
            RoleKey::FamilyDeductible => FAMILY_DEDUCTIBLE,
            RoleKey::FamilyOopMax => FAMILY_OOP_MAX,
        }
    }

    /// Returns the number that messages print for the role, from 1 to 9.
    pub fn number(self) -> u8
        ensures { result ≡ number_of self }
    {
        match self {
            RoleKey::Cover => 1,
            RoleKey::Fee => 2,
            RoleKey::Deductible => 3,
            RoleKey::Copay => 4,
            RoleKey::Rate => 5,
            RoleKey::OopMax => 6,
            RoleKey::Remarks => 7,
            RoleKey::FamilyDeductible => 8,
            RoleKey::FamilyOopMax => 9,
        }
    }

    /// Returns the role with this number in messages, if there is one.
    pub fn with_number(number: usize) -> Option<RoleKey>
        ensures found { IfSome result (λ role. number_of role ≡ number) }
        ensures none { IfNone result ((role : RoleKey) → number_of role ≢ number) }
    {
        match number {
            1 => Some(RoleKey::Cover),
            2 => Some(RoleKey::Fee),
            3 => Some(RoleKey::Deductible),
            4 => Some(RoleKey::Copay),
            5 => Some(RoleKey::Rate),
            6 => Some(RoleKey::OopMax),
            7 => Some(RoleKey::Remarks),
            8 => Some(RoleKey::FamilyDeductible),
            9 => Some(RoleKey::FamilyOopMax),
            _ => None,
        }
    }
}
