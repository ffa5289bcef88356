#![tactic(auto)]

// Laws of 64-bit floats: no code.
