// What a network is: walks, paths, and what a taken-out machine or cable parts. Definitions in specs/, theorems in proofs/. No function.
#![tactic(auto)]
