// Laws alone (proofs/): walks of functions that lend values, and the last arm of a match, for any types. No function.
#![tactic(auto)]
