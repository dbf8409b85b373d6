// The three demands on the whole program, stated over any program: statements stand in specs/, what is proved of them in proofs/.
#![tactic(auto)]
