// Theory only: facts about whole numbers, in specs/.
#![tactic(auto)]
