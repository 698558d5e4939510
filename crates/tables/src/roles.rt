//! The roles by which a claim is settled.

use crate::name::Name;
use feel_tests::Value;

/// The source of a role's value.
pub enum Source {
    /// The value is this literal.
    Literal(Value),
    /// The value is the input data at this index in the plan's names, from 0.
    Input(usize),
    /// The value is the single value of the output with this name.
    Output(Name),
}

impl Drop for Source {
    fn drop(self) {
        match self {
            Source::Literal(_) => {}
            Source::Input(_) => {}
            Source::Output(_) => {}
        }
    }
}

/// The limits of a family, which apply in addition to the limits of its members.
pub struct FamilyRoles {
    /// A number: the deductible of the family.
    pub deductible: Source,
    /// A number: the out-of-pocket maximum of the family.
    pub oop_max: Source,
}

impl Drop for FamilyRoles {
    fn drop(self) {
        let FamilyRoles {
            deductible: _,
            oop_max: _,
        } = self;
    }
}

/// The sources of the values that settle a claim: whether it is covered, the amounts and the rate,
/// the remarks, and the family's limits.
pub struct Roles {
    /// A flag: whether the service is covered.
    pub cover: Source,
    /// A number: the allowed amount of the service.
    pub fee: Source,
    /// A number: the deductible of the member.
    pub deductible: Source,
    /// A number: the copay of the member for each claim.
    pub copay: Source,
    /// A number: the coinsurance of the member, a rate from 0 to 1.
    pub rate: Source,
    /// A number: the out-of-pocket maximum of the member.
    pub oop_max: Source,
    /// The name of an output of kind text that lists its values.
    pub remarks: Option<Name>,
    /// The family's limits, if the plan keeps accumulators for families.
    pub family: Option<FamilyRoles>,
}

impl Drop for Roles {
    fn drop(self) {
        let Roles {
            cover: _,
            fee: _,
            deductible: _,
            copay: _,
            rate: _,
            oop_max: _,
            remarks: _,
            family: _,
        } = self;
    }
}
