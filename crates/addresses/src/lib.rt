// The addresses that the plain engine carries along. The claim stands in specs/ and its proof in proofs/; there is nothing to compute here.
#![tactic(auto)]
