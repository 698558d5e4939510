//! Tests of the explanations that no end-to-end case shows.
use crate::ending::{expects, fail};
use diagnostics::{explain, memory};

#[test]
fn missing_memory_is_explained(rt: HostRuntime) {
    let wanted = "  Cause: The system is out of memory.
  Fix: Free memory or raise the limit on it, then run again.
";
    match explain(rt.alloc(), memory()) {
        Ok(message) => expects(&rt, message.as_str() == wanted, wanted),
        Err(_) => fail(&rt, "memory for a message"),
    }
}
