//! The names that every plan may read, which are also columns of claim files and balance files. Each is written here alone.

/// The name and the column of a claim's number.
pub const CLAIM: &str = "claim";

/// The name and the column of the member's family, in a plan that keeps accumulators for families.
pub const FAMILY: &str = "family";

/// The name and the column of the member.
pub const MEMBER: &str = "member";

/// The name and the column of the day of service.
pub const SERVICE: &str = "service";

/// The name and the column of the billed amount.
pub const BILLED: &str = "billed";

/// The name and the column of the deductible that the member has met.
pub const MET: &str = "met";

/// The name and the column of the amount that the member has paid out of pocket.
pub const OOP: &str = "oop";

/// The name and the column of the amount that the plan has paid for the member.
pub const PAID: &str = "paid";

/// The name of the deductible that the family has met.
pub const FAMILY_MET: &str = "fmet";

/// The name of the amount that the family has paid out of pocket.
pub const FAMILY_OOP: &str = "foop";

/// The column of a balance's benefit year, which is not a name of plans.
pub const YEAR: &str = "year";
