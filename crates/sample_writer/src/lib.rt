#![tactic(auto)]
// Writes the samples of sFlow version 4, each into the front of a lent buffer (document 01, "Writer"): a flow sample or a counter sample from values, or a
// sample given as octets. A writer tests its values first, then the room; where it refuses, every octet of the buffer is as it was.
pub mod counters;
pub mod sample;
