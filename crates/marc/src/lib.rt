// Headings from exchange records: definitions and statements stand in specs/, laws in proofs/.
#![tactic(auto)]
