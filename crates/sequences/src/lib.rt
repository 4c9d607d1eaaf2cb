// Theory only: facts about lists, in specs/.
#![tactic(auto)]
