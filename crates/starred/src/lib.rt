// The starred examples of document 01, proved in specs/ for the definitions that the promises cite.
#![tactic(auto)]
