// Theory only: runs of a net from its starting values, and what a program keeps of one from step to step, in specs/.
#![tactic(auto)]
