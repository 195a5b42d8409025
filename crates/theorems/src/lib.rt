#![tactic(auto)]

// What is promised, in one place: the three demands and the requests of document 02 as theorems, and the starred cases of document 01 as one table under one
// statement. No code: the definitions are in specs/, the proofs, a line or two each, in proofs/.
