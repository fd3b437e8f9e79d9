// The theorems stand in proofs/, what they speak of in specs/.

#![tactic(auto)]
