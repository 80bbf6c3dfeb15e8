// No code: theorems about stations on one line. Every listener hears a lone sender. Two senders that start together agree if their frames are equal,
// and else both know that they clashed. The statements are in specs/, and their proofs in proofs/.
#![tactic(auto)]
