#![tactic(auto)]
// A datagram written again from what the reader gives of it (demand 2): no code, the definitions and theorems are in specs/ and proofs/.
