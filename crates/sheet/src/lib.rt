// The bench sheet: document 01's examples as one table, in specs/Sheet.antt, computed from the definitions that the contracts cite.
#![tactic(auto)]
