// Theory only: truth tables as numbers, the table of a LUT, and runs, in specs/.
#![tactic(auto)]
