// A check in turns, each of which works out all successors of one record (request 10 of paper 02). Definitions and laws only: see specs/ and proofs/.
#![tactic(auto)]
