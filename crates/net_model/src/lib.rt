// Definitions and laws only: nets, copies, cones, cuts, tables and runs, in specs/.
#![tactic(auto)]
