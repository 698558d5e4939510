//! The line and the exit status of a command's error.

ghost use Rattle.std.specs.Prelude.{◌≡◌, ◌≤◌, ℕ, List, take};

/// The greatest length of an error line in bytes, with its line feed.
pub const LINE_LIMIT_BYTES: usize = 128;

/// An error that ends a command. It is printed as one line on standard error, and decides the exit status.
pub trait Refusal {
    ghost status: { Self → ℕ };

    // The bytes of the line, with the line feed.
    ghost line: { Self → List ℕ };

    /// The exit status: 1 for invalid input, 3 for a failure of the system (I/O, memory, threads).
    fn exit_status(&self) -> u8
        ensures exact { result ≡ status self.now }
        ensures refused { 1 ≤ result }
        ensures known { result ≤ 3 };

    /// Writes the line with its line feed to the beginning of the buffer, and returns its length in bytes.
    fn put_line(&self, buffer: &mut [u8; LINE_LIMIT_BYTES]) -> usize
        ensures fits { result ≤ LINE_LIMIT_BYTES }
        ensures written { take result buffer.new ≡ line self.now };
}
