// Numbers and lists, with nothing of machines in them: definitions in specs/, their laws in proofs/. No function.
#![tactic(auto)]
