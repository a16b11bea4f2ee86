// No code: theorems over the public calls. Demand 3, and what every call keeps.
#![tactic(auto)]
