//! The orders in which a run can accept claims.

/// The order in which the claims of several files are accepted. The claims of one file are always
/// accepted in the order of their file.
#[derive(Clone, Copy, PartialEq, Eq)]
pub enum Order {
    /// Any order: a claim is accepted when its file's intake offers it.
    Any,
    /// File after file, in the order in which the files are given.
    Files,
    /// By day of service: of the files' next claims the one with the earliest day is the next, and
    /// among several with this day the one of the file that is given first.
    Service,
}
