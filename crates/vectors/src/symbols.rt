// The numbers of a text's symbols. The program `movkrig` has its own, which gives 255 for a character that is none: here
// that is an error, and a library crate, which both could use, has no heap.
use anyhow::Context;
use kinds::Kind;
use std::alloc::Global;

pub fn numbers<K: Kind>(heap: Global, text: &[u8]) -> anyhow::Result<Vec<u8>> {
    text.iter()
        .map(|c| codes::symbol_number::<K>(*c).context("a character is no symbol"))
        .try_collect(heap)
}
