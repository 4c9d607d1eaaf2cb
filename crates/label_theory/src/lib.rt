// Definitions and theory only: labellings, in specs/.
#![tactic(auto)]
