// What the programs `trace` and `show` print: definitions in specs/, computed examples in proofs/laws/. No code.
#![tactic(auto)]
