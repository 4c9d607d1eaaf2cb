// Theory only: cones, their leaves and their reach, in specs/.
#![tactic(auto)]
