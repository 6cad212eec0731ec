// The mission's theorems, over the definitions that the functions of the other crates are proved to meet: see specs/.
#![tactic(auto)]
