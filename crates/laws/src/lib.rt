// The laws of the definitions of `meaning`, in proofs/, and the promise that leaf writers share, in specs/. No code.
#![tactic(auto)]
