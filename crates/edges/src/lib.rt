// Small cases of the rules, proved by computing them. The table stands in specs/; there is nothing to compute here.
#![tactic(auto)]
