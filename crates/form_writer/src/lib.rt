#![tactic(auto)]
// Writes the parts of an sFlow version 4 sample from values, each into the front of a lent buffer (document 01, "Writer"): packet data, extended data and
// path segments. A writer tests its values first, then the room; where it refuses, every octet of the buffer is as it was.
pub mod extended;
pub mod packet;
pub mod parts;
