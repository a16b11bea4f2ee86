// No code: what happens in the worked session, computed.
#![tactic(auto)]
