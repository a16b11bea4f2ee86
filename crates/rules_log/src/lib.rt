// What happens in a sequence of calls: definitions only.
#![tactic(auto)]
