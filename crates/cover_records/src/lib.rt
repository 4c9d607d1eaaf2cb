// Definitions and theory only: cover records, the listing's text and the outcomes of map and mark, in specs/.
#![tactic(auto)]
