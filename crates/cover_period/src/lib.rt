// Definitions and theory only: covers of keys, whether a period can be met, and the least one, in specs/.
#![tactic(auto)]
