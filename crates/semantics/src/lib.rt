// The meaning of every answer: the definitions stand in specs/, their laws and theorems in proofs/, and this crate has no code.
#![tactic(auto)]
