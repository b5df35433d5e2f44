// A choice by a test, and the laws on tests: a definition and laws alone, in specs/ and proofs/.
#![tactic(auto)]
