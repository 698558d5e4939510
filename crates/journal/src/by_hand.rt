//! Tries the definitions on journals that were worked out by hand. Nothing calls these functions:
//! that they are proved is the test. As tests they would have the whole crate proved again.
ghost use Rattle.journal.specs.TestWords.{EmptyFileFinishes, NothingIsAccepted, Worked};

// The end of a single provider without claims finishes the journal, and so does the cutoff 0.
fn nothing_to_accept()
    ensures empty_file { EmptyFileFinishes }
    ensures cutoff { NothingIsAccepted }
{}

// The second claim of a member waits for the first one, but the claim of another member does not.
// The gate gives the answers that were worked out by hand.
fn answers_as_worked()
    ensures { Worked }
{}
