// A tree with cross links: chokes read off rings and groups. Definitions in specs/, theorems in proofs/. No function.
#![tactic(auto)]
