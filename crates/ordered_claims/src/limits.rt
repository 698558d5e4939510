//! How many claims of each file are in memory before they are given. No contract knows it: a wrong number
//! costs time or memory alone.

use crate::file_queue::FileQueue;
use crate::file_reader::FileReader;
use claim_gate::Terms;
use journal::Order;

/// The maximum number of claims of a file in memory.
const CLAIMS_LIMIT: usize = 8_192;

/// By day of service, the maximum number of claims of all files in memory, or more where the files are
/// long. Each file has a share of it by its length, since long files are given faster than short ones.
const CLAIMS_LIMIT_IN_ALL: usize = 32_768;

/// By day of service, a claim in memory for as many bytes of all files. Where many long files are not
/// sorted, hundreds of claims of one file come in a row, and a short share would end again and again.
const BYTES_A_CLAIM_IN_ALL: usize = 2_048;

/// By day of service, the least share of a file. To read 256 claims takes longer than to start a thread.
const LEAST_SHARE: usize = 256;

/// Where files are given one after another, a claim in memory for as many bytes of all files, before no
/// further file is read ahead. One reader alone is slower than the run, so claims of later files are read
/// while earlier ones are given.
const BYTES_A_CLAIM_AHEAD: usize = 1_024;

/// Where files are given one after another, the least number of claims in memory before no further file
/// is read ahead. There may be more by the claims of one file.
const LEAST_CLAIMS_AHEAD: usize = 16_384;

/// The greatest number of claims of all files in memory by day of service, or else before no further file
/// is read ahead.
const CLAIMS_AHEAD_LIMIT: usize = 131_072;

/// The number of bytes of a short record.
const BYTES_A_RECORD: usize = 64;

/// Returns the maximum number of claims of the file at an index in memory.
pub(crate) fn claims_limit(
    terms: &Terms,
    queues: &[FileQueue],
    readers: &[FileReader<'_>],
    index: usize,
) -> usize {
    let bytes = bytes_of(terms, index);
    let Order::Files = terms.order() else {
        return share_of(bytes, bytes_of_all(terms));
    };
    if claims_before(terms, queues, readers, index) < claims_ahead(bytes_of_all(terms)) {
        CLAIMS_LIMIT
    } else {
        1
    }
}

// Returns the share of a file by its length.
fn share_of(bytes: usize, bytes_of_all: usize) -> usize {
    let claims = (bytes_of_all / BYTES_A_CLAIM_IN_ALL)
        .max(CLAIMS_LIMIT_IN_ALL)
        .min(CLAIMS_AHEAD_LIMIT);
    let share = claims.saturating_mul(bytes) / bytes_of_all.max(1);
    share.max(LEAST_SHARE).min(CLAIMS_LIMIT)
}

// Returns the number of claims in memory before no further file is read ahead.
fn claims_ahead(bytes_of_all: usize) -> usize {
    (bytes_of_all / BYTES_A_CLAIM_AHEAD)
        .max(LEAST_CLAIMS_AHEAD)
        .min(CLAIMS_AHEAD_LIMIT)
}

// Returns about how many claims the files before an index have in memory: those in the queue of a file
// that is read to its end, and of any other file as many as its limit admits.
fn claims_before(
    terms: &Terms,
    queues: &[FileQueue],
    readers: &[FileReader<'_>],
    index: usize,
) -> usize {
    let mut claims = 0_usize;
    for earlier in 0..index.min(readers.len()).min(queues.len()) {
        let in_memory = if readers[earlier].is_over {
            queues[earlier].claims.len()
        } else {
            (bytes_of(terms, earlier) / BYTES_A_RECORD).min(CLAIMS_LIMIT)
        };
        claims = claims.saturating_add(in_memory);
    }
    claims
}

fn bytes_of_all(terms: &Terms) -> usize {
    let mut bytes = 0_usize;
    for file in terms.files() {
        bytes = bytes.saturating_add(file.len());
    }
    bytes
}

fn bytes_of(terms: &Terms, index: usize) -> usize {
    match terms.files().get(index) {
        Some(file) => file.len(),
        None => 0,
    }
}
