// No code: a well-formed store stays well formed.
#![tactic(auto)]
