// Laws of how code changes what it is lent. No function's proof needs them today. This crate has no code.
#![tactic(auto)]
