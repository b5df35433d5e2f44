// Numbers in bytes, little-endian: the lowest byte stands first. Definitions and laws alone, in specs/ and proofs/.
#![tactic(auto)]
