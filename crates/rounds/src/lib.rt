// Turns that go round among several patterns (request 10 of paper 02). Definitions and laws only: see specs/ and proofs/.
#![tactic(auto)]
