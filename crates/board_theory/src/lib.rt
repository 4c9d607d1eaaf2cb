// Theory only: the board of a cover, what its registers hold at first, and that it does what the net does, in specs/.
#![tactic(auto)]
