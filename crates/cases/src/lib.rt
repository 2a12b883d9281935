// Cases A to L of the small file (RULES.md 11.2), computed from the bytes of both files: specs/ and proofs/.
// Beside them small keyword sets, and what is asked of them (RULES.md 4.17).
#![tactic(auto)]
