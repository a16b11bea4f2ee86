// Definition cases of the table, proved by computation; there is no code.
#![tactic(auto)]
