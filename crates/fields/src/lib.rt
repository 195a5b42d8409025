#![tactic(auto)]
// Reads the parts that samples share, and passes over them: addresses, strings, lists of words, runs of items. Every function answers for
// every octet string and every offset, also an offset beyond the octets. A string or a list is given by its offset and its length or
// count; the octets stay where they are.
pub mod address;
pub mod lists;
pub mod runs;
pub mod strings;
pub mod words;
