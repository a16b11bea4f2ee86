// No code: document 01's examples, computed over the definitions.
#![tactic(auto)]
