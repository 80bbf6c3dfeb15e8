// No code: theorems about every station that calls lead to from a new one. The statements are in specs/, and their proofs in proofs/.
#![tactic(auto)]
