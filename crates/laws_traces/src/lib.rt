// No code: what the reader shows of a trace is what the machine held.
#![tactic(auto)]
