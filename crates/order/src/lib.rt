// What holds whatever the order of a project's cells, or of the strata of logged blocks: definitions in specs/, the theorems in proofs/, and no
// function.

#![tactic(auto)]
