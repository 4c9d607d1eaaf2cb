// Definitions and theory only: reading bytes, and the walk over a net record, in specs/.
#![tactic(auto)]
