// Definitions and theory only: covers and the written cover, in specs/.
#![tactic(auto)]
