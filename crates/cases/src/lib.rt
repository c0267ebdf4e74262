// No code: specs/Table.antt holds the case table of document 01, proofs/Table.antt the theorem that the definitions meet it.
#![tactic(auto)]
