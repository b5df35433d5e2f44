// The mathematics behind demand 2, the machine by cycle number and by position: definitions and laws alone, in proofs/.
#![tactic(auto)]
