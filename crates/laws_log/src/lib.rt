// No code: what happens in a sequence of calls, and what the stores hold on its account.
#![tactic(auto)]
