// Theory only: the certificate: the three demands and the requests as theorems about outcomes, in specs/.
#![tactic(auto)]
