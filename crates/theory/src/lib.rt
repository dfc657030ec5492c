// Why the paper's rows are best: the laws of the definitions and the demands, proved over them. There is no code here; the
// theorems are in proofs/, and proofs/Demands.antt has the three that matter.
#![tactic(auto)]
