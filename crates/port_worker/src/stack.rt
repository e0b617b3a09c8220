//! The stack of a thread.

use core::thread::Stack;

/// The octets of the stack of a node's or a port's thread, which calls no deeper.
const OCTETS: usize = 256 * 1024;

/// A stack of 256 KiB in place of the system's, which is mostly of 8 MiB.
pub(crate) fn small_stack() -> Stack {
    Stack::new().stack_size(OCTETS)
}
