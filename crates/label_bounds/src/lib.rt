// Definitions and theory only: lower bounds of labels, floors, and whether a period has a labelling, in specs/.
#![tactic(auto)]
