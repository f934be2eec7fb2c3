//! Room that is asked for at once.
use std::alloc::Global;

/// Asks for so many bytes at once, and gives them back. No clause speaks of it, and without memory
/// nothing happens.
///
/// An allocator that grows page by page, or that hands to the system at once what is given back,
/// learns by it how much is wanted, and then asks the system less often. A thread calls it for
/// itself. Nothing is written to the bytes, so they take hardly a page.
///
/// GNU's allocator keeps what is given back up to the size of the largest piece that the system
/// gave at once and that was given back, if that is below 32 MiB. So the program asks for 31 MiB
/// when it starts; what its threads ask for after that is less, and comes from their own memory.
pub fn ask_for_room(alloc: Global, bytes: usize) {
    let _ = Vec::<u8>::with_capacity(alloc, bytes);
}
