// Definitions and laws only: choices, walks, searches and counts over numbers.
#![tactic(auto)]
