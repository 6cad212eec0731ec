// Bytes written as text, for examples: see specs/.
#![tactic(auto)]
