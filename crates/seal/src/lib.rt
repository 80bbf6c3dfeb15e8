// No code: the seal that makes marks is in specs/. Only a crate that names this one in crates.txt can use it.
#![tactic(auto)]
