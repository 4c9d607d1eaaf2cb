// Theory only: the cuts of a gate compared, decided and chosen, in specs/.
#![tactic(auto)]
