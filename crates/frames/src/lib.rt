// No code: theorems about frames and waves. A station sends a frame as its wave, and the capture of a wave is read as its frame. The statements are
// in specs/, and their proofs in proofs/.
#![tactic(auto)]
