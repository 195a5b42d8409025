#![tactic(auto)]
// Reads sFlow version 4 datagrams (RFC 3176, section 4) with all their values, without a copy and without a heap. Every function answers
// for every octet string and every offset, also an offset beyond the octets.
pub mod datagram;
pub mod sample;
