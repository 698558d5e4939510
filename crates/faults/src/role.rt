//! The roles of a plan that have numbers as values.
ghost use Rattle.std.specs.Prelude.{◌≡◌};
ghost use Rattle.faults.specs.Role.{key_of, number_of};

use crate::role_key::RoleKey;

/// A role with a number as its value, which can be invalid for a claim.
#[derive(Clone, Copy, Debug, PartialEq, Eq, Drop)]
pub enum Role {
    /// The allowed amount of the service, as money.
    Fee,
    /// The deductible of the member, as money.
    Deductible,
    /// The copay of the member for each claim, as money.
    Copay,
    /// The member's coinsurance, a rate from 0 to 1.
    Rate,
    /// The out-of-pocket maximum of the member, as money.
    OopMax,
    /// The deductible of the family, as money.
    FamilyDeductible,
    /// The out-of-pocket maximum of the family, as money.
    FamilyOopMax,
}

impl Role {
    /// Returns the same role among all roles of a plan.
    pub fn key(self) -> RoleKey
        ensures { result ≡ key_of self }
    {
        match self {
            Role::Fee => RoleKey::Fee,
            Role::Deductible => RoleKey::Deductible,
            Role::Copay => RoleKey::Copay,
            Role::Rate => RoleKey::Rate,
            Role::OopMax => RoleKey::OopMax,
            Role::FamilyDeductible => RoleKey::FamilyDeductible,
            Role::FamilyOopMax => RoleKey::FamilyOopMax,
        }
    }

    /// Returns the number that messages print for the role, from 2 to 6, 8 or 9.
    pub fn number(self) -> u8
        ensures { result ≡ number_of self }
    {
        self.key().number()
    }
}
