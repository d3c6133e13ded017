//! What becomes of memory that is let go.

use std::alloc::Global;

// The largest block that counts, less room for what the C library keeps beside it.
const LARGEST: usize = (32 << 20) - (64 << 10);

/// Has what lists let go be used again for the next ones. By itself the C library asks the system for each block above 128
/// KiB and gives it back with the list, so that each list pays for fresh pages; from the first larger block on that was
/// let go, blocks up to its size are kept (mallopt(3): M_MMAP_THRESHOLD, which rises so up to 32 MiB). The block is never
/// written, so it takes no memory; where it is refused, nothing is lost.
pub fn reuse_memory(alloc: Global) {
    let block: Result<Vec<u8>, _> = Vec::with_capacity(alloc, LARGEST);
    drop(block);
}
