// What holds after every list of calls: definitions in specs/, the theorem in proofs/, and no function.

#![tactic(auto)]
