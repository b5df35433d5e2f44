// One result for each input: a statement of contracts alone, in specs/.
#![tactic(auto)]
