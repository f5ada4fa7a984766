// What a contraction leaves in D, and where. The definitions stand in specs/ and the theorems in proofs/; there is nothing to compute here.
#![tactic(auto)]
